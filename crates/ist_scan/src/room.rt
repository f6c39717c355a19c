//! How many words a shot takes, and a shot that is taken only if enough are left.
ghost use Rattle.std.specs.Prelude.{◌≡◌, ◌<◌, ◌^◌, IfOk, IfErr, OnOk, OnErr};
ghost use Rattle.ist_tree.specs.Calls.{HasSeenMore};
ghost use Rattle.ist_tree.specs.Freezing.{FreezesInFew, IsFrozenFor, HasStartedNone};
ghost use Rattle.ist_tree.specs.Refusals.{KeepsRefusal};
ghost use Rattle.ist_tree.specs.Room.{HasMadeNone};
ghost use Rattle.ist_scan.specs.Room.{words_of_shot, HadRoom, HadNoRoom, IsShotRefused};
ghost use Rattle.ist_scan.specs.Shots.{HasTakenShot};

use crate::shots::Shot;
use ist_core::Full;
use ist_layout::{CHANGE_WORDS, LEAF_WORDS, REBUILD_WORDS};
use ist_math::ideal_words;
use ist_tree::{Pass, Tree};

/// Returns how many words a shot of this many keys takes at most if one pass does all the work: the
/// inner rows of the ideal tree of the keys, the row of the rebuild, and the changes of its start and
/// its finish. The new tree uses the old leaves. If these are left and only the pass takes words, the
/// shot is whole (`laws::lone_shots_are_taken`).
///
/// An empty tree and a single leaf take none. If other passes help with the rebuild at the same
/// time, all together may take more: two may build the same part, and one of these is lost.
pub fn shot_words(keys: u64) -> u64
    requires fits { keys < 2 ^ 32 }
    ensures value { result ≡ words_of_shot keys }
{
    ideal_words(keys) - LEAF_WORDS * keys + REBUILD_WORDS + 2 * CHANGE_WORDS
}

// Looks whether this many words are left.
fn look_for(tree: &Tree, pass: &mut Pass, words: u64) -> Result<(), Full>
    requires same_tree { pass.old.tree ≡ tree.now }
    ensures seen { HasSeenMore pass.old pass.new }
    ensures room { OnOk result (HadRoom pass.old pass.new words) }
    ensures full { IfErr result (HadNoRoom pass.old pass.new words) }
    ensures none { HasMadeNone pass.old pass.new }
    ensures unstarted { HasStartedNone pass.old pass.new }
    ensures calls { pass.new.calls ≡ pass.old.calls }
    ensures refused { pass.new.refused ≡ pass.old.refused }
{
    let left = tree.room(pass);
    if left < words {
        let all = tree.words();
        return Err(Full {
            next: all - left,
            asked: words,
            words: all,
        });
    }
    Ok(())
}

impl Shot {
    /// Takes a shot as `take` does, but only if at least `words` words are left at one moment of
    /// the call. Otherwise it returns `Full` and freezes nothing.
    ///
    /// A shot that runs out of words in its rebuild makes the tree read-only. Ask for `shot_words`
    /// of the keys, and for the words of the updates to come: other passes may take words between
    /// the look and the shot, and while it is taken.
    pub fn take_if_room(tree: &Tree, pass: &mut Pass, words: u64) -> Result<Shot, Full>
        requires same_tree { pass.old.tree ≡ tree.now }
        ensures seen { HasSeenMore pass.old pass.new }
        ensures frozen { IfOk result (IsFrozenFor pass.new) }
        ensures taken { IfOk result (HasTakenShot pass.old pass.new) }
        ensures room { OnOk result (HadRoom pass.old pass.new words) }
        ensures few { IfOk result (FreezesInFew pass.old pass.new) }
        ensures full { IfErr result (IsShotRefused pass.old pass.new words) }
        ensures unstarted { OnErr result (HasStartedNone pass.old pass.new) }
        ensures calls { pass.new.calls ≡ pass.old.calls }
        ensures unrefused { OnErr result (pass.new.refused ≡ pass.old.refused) }
        ensures refused { KeepsRefusal pass.old pass.new }
    {
        look_for(tree, pass, words)?;
        pass.know();
        Shot::take(tree, pass)
    }
}
