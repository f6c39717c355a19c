//! The tree and its calls.
ghost use Rattle.std.specs.Prelude.{◌≡◌, ◌+◌, ◌^◌, ◌<◌, ◌≤◌, length, map};
ghost use Rattle.std.specs.Prelude.{Some, None, IfSome, IfOk, IfErr, OnOk};
ghost use Rattle.std.specs.List.Sorted.{IsStrictlyIncreasing};
ghost use Rattle.ist_core.specs.RowLayout.{place_limit};
ghost use Rattle.ist_core.specs.declared.commands.Command.TheVariants.{Get, Put, Remove};
ghost use Rattle.ist_core.specs.Enabled.{caller_limit};
ghost use Rattle.ist_core.specs.Images.{IsImage};
ghost use Rattle.ist_core.specs.Logs.{GoesOn};
ghost use Rattle.ist_core.specs.StartLayout.{start};
ghost use Rattle.laws_histories.specs.Searching.{HasPosition};
ghost use Rattle.ist_find.specs.Spans.{pair_value, EndAtEdges};
ghost use Rattle.ist_tree.specs.Faces.{fresh_pass, with_back};
ghost use Rattle.ist_tree.specs.Calls.{HasSeenMore, MakerHasLearnt, MakerHasSeenMore, AddsCall, HasLoadedFew};
ghost use Rattle.ist_tree.specs.Closing.{ClosesWith};
ghost use Rattle.ist_tree.specs.Opening.{IsNewTree, IsFaultOf};
ghost use Rattle.ist_tree.specs.RealTime.{ReturnsInTime, ClosesInTime};
ghost use Rattle.ist_tree.specs.Spans.{AllHave, HasLoadedFewOver, state_seen};
ghost use Rattle.ist_tree.specs.Updates.{HasUpdated, HasWorked, IsTurnedAway};

use crate::faults::OpenFault;
use crate::finding::begin_find;
use crate::passes::{Maker, Pass};
use crate::updating::apply_in_call;
use ist_core::{Full, Pair, Reply};
use ist_find::{Span, find_span};
use ist_image::{Image, needed_words};
use ist_rest::Closed;
use ist_rows::{Caller, enter};
use ist_rule::{TreeTable, begin_read, close, end_call, join, know, open_table_over};
use ist_updates::{Update, When};
use std::alloc::Global;
use std::marker::Model;

/// An ordered map from `u64` keys to `u64` values that threads share.
///
/// Contracts see which tree it is, the pairs that it was opened with, and how many words it has.
#[derive(Drop)]
pub struct Tree {
    pub(crate) table: TreeTable,
}

impl Model for Tree {
    ghost use Rattle.ist_tree.specs.Faces.{TreeFace};

    ghost Value = { TreeFace };

    ghost view = { λ t. record { table = t.table.table; start = t.table.start; words = t.table.table.words } };
}

impl Tree {
    /// Makes a tree of the pairs, with this many words, and its maker. The keys are strictly
    /// increasing. Until the maker makes a pass, the words of the tree are the image of the pairs.
    ///
    /// All memory of the tree is allocated here. It returns `Small` exactly if the tree of the
    /// pairs takes more words, and decides this before it allocates. It returns `Memory` only if
    /// allocation failed.
    pub fn open(alloc: Global, words: u32, pairs: &[Pair]) -> Result<(Tree, Maker), OpenFault>
        requires rising { IsStrictlyIncreasing (map (λ pair. pair.key) pairs.now) }
        requires few { length pairs.now < 2 ^ 32 }
        requires within { words ≤ place_limit }
        ensures new { IfOk result (λ t. IsNewTree words pairs.now t.0 t.1) }
        ensures fault { IfErr result (λ f. IsFaultOf words pairs.now f) }
    {
        let mut image = Image::new(alloc);
        Tree::open_over(alloc, &mut image, words, pairs)
    }

    /// As `open`, with the memory of an image that the next opening can use again: it writes the
    /// words of this tree there, and clears only the words that the last tree used.
    pub fn open_over(
        alloc: Global,
        image: &mut Image,
        words: u32,
        pairs: &[Pair],
    ) -> Result<(Tree, Maker), OpenFault>
        requires rising { IsStrictlyIncreasing (map (λ pair. pair.key) pairs.now) }
        requires few { length pairs.now < 2 ^ 32 }
        requires within { words ≤ place_limit }
        ensures new { IfOk result (λ t. IsNewTree words pairs.now t.0 t.1) }
        ensures image { OnOk result (IsImage (start pairs.now words) image.new) }
        ensures fault { IfErr result (λ f. IsFaultOf words pairs.now f) }
    {
        let words = u64::from(words);
        let needed = needed_words(pairs.len() as u64);
        if words < needed {
            return Err(OpenFault::Small { needed, words });
        }
        let kept = pairs.to_vec(alloc)?;
        image.lay(words, pairs)?;
        let (table, token) = open_table_over(alloc, image.words(), &kept)?;
        know(&token);
        Ok((
            Tree { table },
            Maker {
                token,
                refused: false,
                made: 0,
                taken_back: 0,
            },
        ))
    }

    /// Makes the next pass. It has seen what the maker has seen, and has made no call.
    pub fn pass(&self, maker: &mut Maker) -> Pass
        requires same_tree { maker.old.tree ≡ self.now }
        requires few { maker.old.made < caller_limit }
        ensures fresh { result ≡ fresh_pass self.now maker.new maker.old.made }
        ensures maker { maker.new
            ≡ record maker.old { made = maker.old.made + 1; seen = maker.new.seen } }
        ensures maker_seen { GoesOn maker.old.seen maker.new.seen }
    {
        let caller = enter(&self.table, &mut maker.token);
        maker.made = u64::from(caller.number) + 1;
        know(&caller.token);
        Pass {
            caller,
            refused: None,
        }
    }

    /// Gives a pass back to its maker. The maker has then seen what the pass has seen. It keeps the
    /// pass's calls, and whether the pass had met a refused rebuild.
    pub fn take_back(&self, maker: &mut Maker, pass: Pass)
        requires same_tree { maker.old.tree ≡ self.now }
        requires its_tree { pass.tree ≡ self.now }
        ensures maker { MakerHasSeenMore (with_back pass maker.old) maker.new }
        ensures learnt { MakerHasLearnt maker.new pass }
    {
        let Pass { caller, refused } = pass;
        let Caller { token, .. } = caller;
        join(&self.table, &mut maker.token, token);
        maker.taken_back += 1;
        maker.refused |= refused.is_some();
    }

    /// Returns the value of the key, if it has one. Never allocates, always returns.
    ///
    /// The call is added to the calls of the pass: the map has this value for the key after some
    /// number of changes, no fewer than the pass had seen. It makes few loads.
    pub fn find(&self, pass: &mut Pass, key: u64) -> Reply
        requires same_tree { pass.old.tree ≡ self.now }
        ensures seen { HasSeenMore pass.old pass.new }
        ensures added { AddsCall pass.old pass.new (Get key) result }
        ensures timed { ReturnsInTime pass.old pass.new (Get key) result }
        ensures value { let tree = pass.old.tree in
            HasPosition tree.start tree.words pass.old.seen pass.new.seen key result }
        ensures loads { HasLoadedFew pass.old pass.new key result }
        ensures refused { pass.new.refused ≡ pass.old.refused }
    {
        let token = &mut pass.caller.token;
        let found = begin_find(&self.table, token, key);
        know(token);
        end_call(&self.table, token, found.value);
        know(token);
        found.value
    }

    /// Returns the range of keys that share the key's slot, and the pair in that slot, if there is
    /// one. Never blocks, never allocates, always returns.
    ///
    /// Each key of the range has what the result says at some number of changes of its own, no
    /// fewer than there were at the first step of this call: so it has the effect of each call that
    /// had returned by then. Different keys may have different numbers. The range ends at
    /// keys of the tree's inner rows, so the next range begins at `last + 1`. It isn't a call of
    /// the map: the calls of the pass stay as they are. It makes few loads.
    pub fn span(&self, pass: &mut Pass, key: u64) -> Span
        requires same_tree { pass.old.tree ≡ self.now }
        ensures seen { HasSeenMore pass.old pass.new }
        ensures first { result.first ≤ key }
        ensures last { key ≤ result.last }
        ensures within { IfSome result.pair (λ p. (result.first ≤ p.key) × (p.key ≤ result.last)) }
        ensures values { AllHave pass.old pass.new result.first result.last result.pair }
        ensures edges { EndAtEdges (state_seen pass.new) result.first result.last }
        ensures loads { let value = pair_value result.pair key in
            HasLoadedFewOver pass.old pass.new key value }
        ensures calls { pass.new.calls ≡ pass.old.calls }
        ensures stamp { pass.new.stamp ≡ pass.old.stamp }
        ensures refused { pass.new.refused ≡ pass.old.refused }
    {
        let token = &mut pass.caller.token;
        know(token);
        begin_read(&self.table, token);
        find_span(&self.table, token, key)
    }

    /// Inserts or replaces the value at the key, and returns the value that the key had before.
    /// Helps what it meets, never allocates, always returns: it walks down again only after the
    /// table made progress.
    ///
    /// The call is added to the calls of the pass: the map changed so in one step, after all that
    /// the pass had seen. The change is counted at each node above it. If counts reached their
    /// limits, the topmost such node is rebuilt. No rebuild of a node below its limit is started.
    /// It returns `Full` if the tree had too few words left for a row of the put, or for a rebuild
    /// on its way: the call didn't happen then, and nothing was counted. If only the rebuild after the change was short of
    /// words, the call returns its reply, and the pass keeps the first such refusal.
    pub fn put(&self, pass: &mut Pass, key: u64, value: u64) -> Result<Reply, Full>
        requires same_tree { pass.old.tree ≡ self.now }
        ensures worked { HasWorked pass.old pass.new }
        ensures timed { IfOk result (λ reply.
            ReturnsInTime pass.old pass.new (Put key value) reply) }
        ensures updated { IfOk result (HasUpdated pass.old pass.new (Put key value)) }
        ensures turned_away { IfErr result (IsTurnedAway pass.old pass.new key (Some value)) }
    {
        let value = Some(value);
        let when = When::Always;
        match apply_in_call(self, pass, Update { key, value, when }) {
            Ok(outcome) => Ok(outcome.reply()),
            Err(full) => Err(full),
        }
    }

    /// Removes the key, and returns the value that it had, if it had one. All else is as with
    /// `put`. If the key has no value, nothing is changed or counted.
    pub fn remove(&self, pass: &mut Pass, key: u64) -> Result<Reply, Full>
        requires same_tree { pass.old.tree ≡ self.now }
        ensures worked { HasWorked pass.old pass.new }
        ensures timed { IfOk result (λ reply.
            ReturnsInTime pass.old pass.new (Remove key) reply) }
        ensures updated { IfOk result (HasUpdated pass.old pass.new (Remove key)) }
        ensures turned_away { IfErr result (IsTurnedAway pass.old pass.new key None) }
    {
        let value = None;
        let when = When::Always;
        match apply_in_call(self, pass, Update { key, value, when }) {
            Ok(outcome) => Ok(outcome.reply()),
            Err(full) => Err(full),
        }
    }

    /// Closes the tree and returns its words after the last call, without a copy. All passes were
    /// taken back.
    ///
    /// The words represent the opening pairs and the calls of each pass by its number. If no pass
    /// had met a refused rebuild, each node of the tree is open, with a count below its limit.
    pub fn close(self, maker: Maker) -> Closed
        requires same_tree { maker.tree ≡ self }
        requires all_back { length maker.taken ≡ maker.made }
        ensures words { length result ≡ self.words }
        ensures stands { ClosesWith maker result }
        ensures linearizable { let m = maker in ClosesInTime m.tree.start m.made m.moments m.taken }
    {
        let Tree { table } = self;
        let Maker { token, .. } = maker;
        Closed::new(close(table, token))
    }
}
