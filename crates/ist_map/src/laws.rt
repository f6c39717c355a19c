//! Laws on runs of workers. The functions do nothing and return nothing: contracts are laws.
ghost use Rattle.ist_map.specs.Laws.{RunsAreOneHistory};
ghost use Rattle.ist_map.specs.Owning.{OwnersReadBack};

/// The calls of all workers of a run, on all of its trees, form one legal history. It leads from the
/// pairs that the map had before to those that it has afterwards, and is made of what each worker was
/// told.
pub fn runs_are_one_history()
    ensures one { RunsAreOneHistory }
{}

/// If only one worker changes a key, its calls about the key get the replies that they would get if no
/// one else made a call: it reads back what it wrote last, at any time, also on a later tree.
#[tactic(auto, using(crate::proofs::OwningLemmas::owner_reads))]
pub fn owners_read_back()
    ensures reads { OwnersReadBack }
{}
