//! A map that workers share, on one tree after another.
ghost use Rattle.std.specs.Prelude.{◌≡◌, ◌≢◌, ◌^◌, ◌<◌, ◌≤◌, ℕ, List, length, map, All, Any};
ghost use Rattle.std.specs.Prelude.{false, None, IsSome, OnOk, OnErr, IfOk, IfErr};
ghost use Rattle.std.specs.List.Sorted.{IsStrictlyIncreasing};
ghost use Rattle.ist_core.specs.Enabled.{caller_limit};
ghost use Rattle.ist_core.specs.RowLayout.{place_limit};
ghost use Rattle.ist_rest.specs.RestingWords.{HoldPairs};
ghost use Rattle.ist_tree.specs.Opening.{IsNewTree};
ghost use Rattle.ist_map.specs.Growing.{IsFirstFault, IsGrowFault, words_after};
ghost use Rattle.ist_map.specs.Hands.{first_stop};
ghost use Rattle.ist_map.specs.Running.{HasRunOn, HasRunOnOne, HasStopped, OpensEnough};

use crate::hands::{Hand, Worker, dismiss_all, has_refused, hire_all, left, work_all};
use crate::stops::{Stop, StopRequest};
use ist_core::Pair;
use ist_image::Image;
use ist_reopen::{MOST_WORDS, ReopenFault, open_after};
use ist_rest::Closed;
use ist_tree::{Maker, OpenFault, Tree};
use std::alloc::{AllocError, Global};
use std::thread::Threads;

/// A map that lives on: workers run on it, on one tree after another, each with at least twice the
/// words of the one before.
///
/// Between runs no tree is open, and the pairs are those of the closed words. Contracts see these.
#[derive(Drop)]
pub struct Map {
    closed: Closed,
    image: Image,
    words: u32,
}

impl Map {
    /// A map of these pairs, whose keys are strictly increasing. The first tree of its first run has
    /// this many words, or more if the pairs need more.
    ///
    /// It returns `Small` only if the pairs take more words than a tree may have, and `Memory` only
    /// if allocation failed.
    pub fn open(alloc: Global, words: u32, pairs: &[Pair]) -> Result<Map, OpenFault>
        requires rising { IsStrictlyIncreasing (map (λ pair. pair.key) pairs.now) }
        requires few { length pairs.now < 2 ^ 32 }
        requires within { words ≤ place_limit }
        ensures pairs { IfOk result (λ m. HoldPairs m.closed pairs.now) }
        ensures words { IfOk result (λ m. m.words ≡ words) }
        ensures fault { IfErr result (IsFirstFault words pairs.now) }
    {
        let mut image = Image::new(alloc);
        let (tree, maker) = open_pairs(alloc, &mut image, words, pairs)?;
        Ok(Map {
            closed: tree.close(maker),
            image,
            words,
        })
    }

    /// A map of the pairs that a closed tree left. The first tree of its first run has this many
    /// words, or more if the pairs need more. Allocates nothing.
    pub fn new(alloc: Global, closed: Closed, words: u32) -> Map
        ensures closed { result.closed ≡ closed }
        ensures words { result.words ≡ words }
    {
        Map {
            closed,
            image: Image::new(alloc),
            words,
        }
    }

    /// Returns the words of the last tree.
    pub fn closed(&self) -> &Closed
        ensures value { result.now ≡ self.now.closed }
    {
        &self.closed
    }

    /// Ends the map, and returns the words of the last tree.
    pub fn into_closed(self) -> Closed
        ensures value { result ≡ self.closed }
    {
        self.closed
    }

    /// Lets the workers run side by side until none is refused, each on its own thread if one can be
    /// started.
    ///
    /// They share one tree. If a worker's call is refused, the tree is closed as soon as all have
    /// stopped, and all go on in a tree of twice the words (of `MOST_WORDS` if that is more, and of more
    /// if the pairs take more) that begins with the same pairs. So with memory a run ends when the
    /// workers end, or when a worker was refused on a tree of `MOST_WORDS` words (`Beyond`), or when the
    /// pairs alone take more than `MOST_WORDS` words (`Small`). Then, and also if memory runs out, the
    /// map has all pairs that were put, each worker knows what it was told, and `run` may be called
    /// again. Its first tree has the words of the last one then.
    pub fn run<R: Threads + Sync, W: Worker + Send>(
        &mut self,
        rt: &R,
        alloc: Global,
        hands: &mut [Hand<W>],
    ) -> Result<(), ReopenFault>
        requires few { length hands.old ≤ caller_limit }
        ensures ran { HasRunOn self.old.closed self.new.closed self.old.words self.new.words
            (map (λ h. W.told h.worker) hands.old) (map (λ h. W.told h.worker) hands.new) }
        ensures done { OnOk result (All (λ h. W.is_done h.worker) hands.new) }
        ensures fault { IfErr result (λ f. HasStopped self.old.closed self.new.closed self.old.words
            self.new.words (map (λ h. W.told h.worker) hands.old)
            (map (λ h. W.told h.worker) hands.new) (map (λ h. h.refused) hands.new) f) }
    {
        self.run_until(rt, alloc, hands, &Stop::never())?;
        Ok(())
    }

    /// Does as `run`, and hands `stop` to each worker. `Ok(None)`: each is done. `Ok(Some(_))`: some
    /// ended because a stop was requested; they go on if `run` or `run_until` is called again.
    ///
    /// A refusal comes first: all go on in a larger tree then, where each may ask `stop` again.
    pub fn run_until<R: Threads + Sync, W: Worker + Send>(
        &mut self,
        rt: &R,
        alloc: Global,
        hands: &mut [Hand<W>],
        stop: &Stop,
    ) -> Result<Option<StopRequest>, ReopenFault>
        requires few { length hands.old ≤ caller_limit }
        ensures ran { HasRunOn self.old.closed self.new.closed self.old.words self.new.words
            (map (λ h. W.told h.worker) hands.old) (map (λ h. W.told h.worker) hands.new) }
        ensures done { IfOk result (λ asked.
            asked ≡ None → All (λ h. W.is_done h.worker) hands.new) }
        ensures left { IfOk result (λ asked. asked ≢ None → Any (λ h. IsSome h.stopped) hands.new) }
        ensures unasked { IfOk result (λ asked. stop.now.can_stop ≡ false → asked ≡ None) }
        ensures fault { IfErr result (λ f. HasStopped self.old.closed self.new.closed self.old.words
            self.new.words (map (λ h. W.told h.worker) hands.old)
            (map (λ h. W.told h.worker) hands.new) (map (λ h. h.refused) hands.new) f) }
    {
        self.closed.know();
        let mut words = self.words;
        loop {
            self.run_once(rt, alloc, words, hands, stop)?;
            if !has_refused(hands) {
                return Ok(left(hands));
            }
            words = words_after(self.words)?;
        }
    }

    // Lets the workers run on one tree of this many words until each has stopped.
    fn run_once<R: Threads + Sync, W: Worker + Send>(
        &mut self,
        rt: &R,
        alloc: Global,
        words: u32,
        hands: &mut [Hand<W>],
        stop: &Stop,
    ) -> Result<(), ReopenFault>
        requires few { length hands.old ≤ caller_limit }
        ensures ran { OnOk result (HasRunOnOne self.old.closed self.new.closed words self.new.words
            (map (λ h. W.told h.worker) hands.old) (map (λ h. W.told h.worker) hands.new)
            (map (λ h. h.refused) hands.new)) }
        ensures more { OnOk result (words ≤ self.new.words) }
        ensures some { OnOk result (0 < self.new.words) }
        ensures within { OnOk result (self.new.words ≤ MOST_WORDS) }
        ensures fault { IfErr result (IsGrowFault self.old.closed words) }
        ensures unchanged { OnErr result (self.new.closed ≡ self.old.closed) }
        ensures kept { OnErr result (self.new.words ≡ self.old.words) }
        ensures idle { OnErr result (hands.new ≡ hands.old) }
        ensures done { OnOk result
            (All (λ h. h.refused ≡ None → h.stopped ≡ None → W.is_done h.worker) hands.new) }
        ensures unasked { OnOk result
            (stop.now.can_stop ≡ false → first_stop (map (λ h. h.stopped) hands.new) ≡ None) }
        ensures same { length hands.new ≡ length hands.old }
    {
        self.closed.know();
        let (tree, mut maker) = open_enough(alloc, &mut self.image, &self.closed, words)?;
        self.words = tree.words() as u32;
        hire_all(&tree, &mut maker, hands);
        work_all(rt, &tree, hands, stop);
        dismiss_all(&tree, &mut maker, hands);
        self.closed = tree.close(maker);
        Ok(())
    }
}

// Opens a tree of the pairs, of this many words, or of as many as they take.
fn open_pairs(
    alloc: Global,
    image: &mut Image,
    words: u32,
    pairs: &[Pair],
) -> Result<(Tree, Maker), OpenFault>
    requires rising { IsStrictlyIncreasing (map (λ pair. pair.key) pairs.now) }
    requires few { length pairs.now < 2 ^ 32 }
    requires within { words ≤ place_limit }
    ensures new { IfOk result (λ t. (w : ℕ) × IsNewTree w pairs.now t.0 t.1) }
    ensures fault { IfErr result (IsFirstFault words pairs.now) }
{
    match Tree::open_over(alloc, image, words, pairs) {
        Err(OpenFault::Small { needed, .. }) if needed <= u64::from(MOST_WORDS) => {
            Tree::open_over(alloc, image, needed as u32, pairs)
        }
        other => other,
    }
}

// Opens a tree of this many words over the closed one, or of as many as its pairs take.
fn open_enough(
    alloc: Global,
    image: &mut Image,
    closed: &Closed,
    words: u32,
) -> Result<(Tree, Maker), ReopenFault>
    ensures new { IfOk result (λ t. OpensEnough closed.now words t.0 t.1) }
    ensures fault { IfErr result (IsGrowFault closed.now words) }
{
    match open_after(alloc, image, closed, words) {
        Err(ReopenFault::Small { needed, .. }) if needed <= u64::from(MOST_WORDS) => {
            open_after(alloc, image, closed, needed as u32)
        }
        other => other,
    }
}

// Returns how many words are asked for after a tree of this many, if a tree may have more.
fn words_after(words: u32) -> Result<u32, ReopenFault>
    requires within { words ≤ MOST_WORDS }
    ensures next { IfOk result (λ w. w ≡ words_after words) }
    ensures more { IfOk result (λ w. 0 < words → words < w) }
    ensures fault { IfErr result (λ f.
        (closed : List ℕ) → IsGrowFault closed (words_after words) f) }
{
    let twice = 2 * words;
    if words >= MOST_WORDS {
        return Err(ReopenFault::Beyond { words: twice });
    }
    Ok(twice.min(MOST_WORDS))
}
