//! What a word of a slot reads as after its change and rebuild are followed, and the value of a leaf.
ghost use Rattle.std.specs.Prelude.{◌≡◌, ◌≢◌, ◌==◌, ◌+◌, ◌<◌, ◌≤◌, ℕ, Some, None, IfSome};
ghost use Rattle.ist_core.specs.RowLayout.{change_words};
ghost use Rattle.ist_core.specs.References.{ChangeAt, RebuildAt, LeafAt, ref_of};
ghost use Rattle.ist_layout.specs.Meanings.{ref_meant};
ghost use Rattle.ist_rule.specs.Faces.{IsViewAt};
ghost use Rattle.ist_find.specs.Searches.{SeesLeaf, SeesChange, SeesRebuild, Names};
ghost use Rattle.ist_find.specs.Reads.{IsPlain, IsEnd, TellsSide, TellsTarget, TellsValue};
ghost use Rattle.ist_core.specs.Statuses.{decided_yes};
ghost use Rattle.ist_dcss.specs.HelpEvents.{outcome_offset_of};

use crate::answers::Counted;
use ist_dcss::change_in;
use ist_layout::{
    CHANGE_DECISION_OFFSET, CHANGE_FROM_OFFSET, CHANGE_TO_OFFSET, DECIDED_YES, LEAF_KEY_OFFSET,
    LEAF_VALUE_OFFSET, REBUILD_TARGET_OFFSET, Ref,
};
use ist_rule::{TreeTable, TreeToken, know, load};

// Which word of a change its slot reads as, if this is its decision.
fn side_offset(decision: u64) -> u64
    ensures value { result ≡ outcome_offset_of (decision == decided_yes) }
    ensures within { result < change_words }
{
    if decision == DECIDED_YES {
        CHANGE_TO_OFFSET
    } else {
        CHANGE_FROM_OFFSET
    }
}

// What the slot of the change at `base` reads as: `to` if the change was decided yes at the first
// step of this call, and otherwise `from`.
fn side(table: &TreeTable, token: &mut TreeToken, word: u64, base: u32) -> u64
    requires row { IsViewAt table.now (λ v. SeesChange v base) token.old.view }
    requires change { ref_of word ≡ Some (ChangeAt base) }
    ensures side { TellsSide token.old.view token.new.view word result }
    ensures loads { token.new.view.loaded ≡ token.old.view.loaded + 2 }
{
    know(token);
    let decision = load(table, token, u64::from(base) + CHANGE_DECISION_OFFSET);
    know(token);
    load(table, token, u64::from(base) + side_offset(decision))
}

/// What the word of a slot reads as after its change, if it names one, is followed.
pub(crate) fn past_change(table: &TreeTable, token: &mut TreeToken, word: u64) -> Counted<u64>
    requires names { IsViewAt table.now (λ v. Names v (ref_of word)) token.old.view }
    ensures side { TellsSide token.old.view token.new.view word result.value }
    ensures counted { token.new.view.loaded ≡ token.old.view.loaded + result.loads }
    ensures loads { result.loads ≤ 2 }
{
    know(token);
    match change_in(word) {
        Some(base) => {
            let value = side(table, token, word, base);
            Counted { value, loads: 2 }
        }
        None => Counted {
            value: word,
            loads: 0,
        },
    }
}

// The base of the rebuild that the word names, if it names one.
fn rebuild_in(word: u64) -> Option<u32>
    ensures some { IfSome result (λ base. ref_of word ≡ Some (RebuildAt base)) }
    ensures none { result ≡ None → (base : ℕ) → ref_of word ≢ Some (RebuildAt base) }
{
    match Ref::from_word(word) {
        Some(Ref::Rebuild { base }) => Some(base),
        _ => None,
    }
}

// The reference that the word names.
fn named(word: u64) -> Ref
    requires named { ref_of word ≢ None }
    ensures value { ref_of word ≡ Some (ref_meant result) }
{
    match Ref::from_word(word) {
        Some(reference) => reference,
        None => Ref::Empty,
    }
}

// The target of the rebuild at `base`.
fn target(table: &TreeTable, token: &mut TreeToken, word: u64, base: u32) -> Ref
    requires row { IsViewAt table.now (λ v. SeesRebuild v base) token.old.view }
    requires rebuild { ref_of word ≡ Some (RebuildAt base) }
    ensures target { TellsTarget token.old.view token.new.view word (ref_meant result) }
    ensures loads { token.new.view.loaded ≡ token.old.view.loaded + 1 }
{
    know(token);
    let target = load(table, token, u64::from(base) + REBUILD_TARGET_OFFSET);
    know(token);
    Ref::Inner {
        base: target as u32,
    }
}

/// What such a word reads as after its rebuild, if it names one, is followed too.
pub(crate) fn past_rebuild(table: &TreeTable, token: &mut TreeToken, word: u64) -> Counted<Ref>
    requires names { IsViewAt table.now (λ v. Names v (ref_of word)) token.old.view }
    requires plain { IsPlain (ref_of word) }
    ensures target { TellsTarget token.old.view token.new.view word (ref_meant result.value) }
    ensures counted { token.new.view.loaded ≡ token.old.view.loaded + result.loads }
    ensures loads { result.loads ≤ 1 }
{
    know(token);
    match rebuild_in(word) {
        Some(base) => {
            let value = target(table, token, word, base);
            Counted { value, loads: 1 }
        }
        None => Counted {
            value: named(word),
            loads: 0,
        },
    }
}

/// The base of the leaf, if the reference is one.
pub(crate) fn leaf_in(reference: Ref) -> Option<u32>
    ensures some { IfSome result (λ base. ref_meant reference ≡ LeafAt base) }
    ensures none { result ≡ None → (base : ℕ) → ref_meant reference ≢ LeafAt base }
{
    match reference {
        Ref::Leaf { base } => Some(base),
        _ => None,
    }
}

// The value that the leaf gives the key.
fn leaf_value(table: &TreeTable, token: &mut TreeToken, base: u32, key: u64) -> Counted<Option<u64>>
    requires leaf { IsViewAt table.now (λ v. SeesLeaf v base) token.old.view }
    ensures value { TellsValue token.old.view token.new.view key (LeafAt base) result.value }
    ensures counted { token.new.view.loaded ≡ token.old.view.loaded + result.loads }
    ensures loads { result.loads ≤ 2 }
{
    know(token);
    if load(table, token, u64::from(base) + LEAF_KEY_OFFSET) != key {
        return Counted {
            value: None,
            loads: 1,
        };
    }
    know(token);
    let value = load(table, token, u64::from(base) + LEAF_VALUE_OFFSET);
    Counted {
        value: Some(value),
        loads: 2,
    }
}

/// The value that an empty slot or a leaf gives the key.
pub(crate) fn value_in(
    table: &TreeTable,
    token: &mut TreeToken,
    reference: Ref,
    key: u64,
) -> Counted<Option<u64>>
    requires end { IsViewAt table.now (λ v. IsEnd v (ref_meant reference)) token.old.view }
    ensures value { TellsValue token.old.view token.new.view key (ref_meant reference) result.value }
    ensures counted { token.new.view.loaded ≡ token.old.view.loaded + result.loads }
    ensures loads { result.loads ≤ 2 }
{
    know(token);
    match leaf_in(reference) {
        Some(base) => leaf_value(table, token, base, key),
        None => Counted {
            value: None,
            loads: 0,
        },
    }
}
