//! Whether words are lawful at rest: words from any source are walked slot by slot.
ghost use Rattle.std.specs.Prelude.{◌≡◌, ◌+◌, ◌<◌, ◌≤◌, ◌++◌, ◌∷◌, ◌↔◌, []};
ghost use Rattle.std.specs.Prelude.{length, reverse, IfOk, IfErr, OnOk, IfSome, IsTrue, Some, None};
ghost use Rattle.std.specs.List.Sorted.{IsStrictlyIncreasing};
ghost use Rattle.ist_core.specs.RowLayout.{inner_words, leaf_words, first_row};
ghost use Rattle.ist_core.specs.RowLayout.{next_place, place_limit};
ghost use Rattle.ist_core.specs.References as references;
ghost use Rattle.ist_core.specs.References.{ref_of};
ghost use Rattle.ist_layout.specs.Meanings.{ref_meant};
ghost use Rattle.ist_rest.specs.WordRows as word_rows;
ghost use Rattle.ist_rest.specs.WordRows.{word_at, IsWithinUsed, change_on, rebuild_on, rows_on};
ghost use Rattle.ist_rest.specs.Walks.{Visit, IsGood, IsGoodLeaf, IsGoodRow, Reads};
ghost use Rattle.ist_rest.specs.Walks.{pairs_read, first_visit};
ghost use Rattle.ist_rest.specs.Readings.{IsTreeRef};
ghost use Rattle.ist_rest.specs.RestingWords.{HasGoodBounds, AreLawful, BreaksFirstAt};
ghost use Rattle.tele_audit.specs.Auditing.{AllFit, AreClaimed, AreRefused, IsInInterval};
ghost use Rattle.tele_audit.specs.Auditing.{IsTaskOf, PassesSlot, FailsSlot, low_of, high_of};
ghost use Rattle.tele_audit.specs.Auditing.{tasks_in_row};

use crate::marks::claim;
use crate::tasks::AuditTask;
use ist_core::Pair;
use ist_layout::{
    ANCHOR, ANCHOR_SLOT_PLACE, CHANGE_WORDS, INNER_DEGREE_OFFSET, INNER_SIZE_OFFSET, LEAF_WORDS,
    NEXT_PLACE, REBUILD_WORDS, Ref, Status, slot_place,
};
use ist_rest::{WordList, is_within, key_at, leaf_pair, past_change, past_rebuild, slot_at};
use std::alloc::{AllocError, Global};

/// Marks the words of the change, if the reference is one. Returns false if one of them was marked
/// before.
fn claim_change(marks: &mut Vec<bool>, found: Ref) -> bool
    requires within { AllFit marks.old.items (change_on (Some (ref_meant found))) }
    ensures length { length marks.new.items ≡ length marks.old.items }
    ensures claimed { IsTrue result
        → AreClaimed marks.old.items marks.new.items (change_on (Some (ref_meant found))) }
    ensures refused { (IsTrue result → ⊥)
        → AreRefused marks.old.items (change_on (Some (ref_meant found))) }
{
    match found {
        Ref::Change { base } => claim(marks, u64::from(base), CHANGE_WORDS),
        Ref::Empty | Ref::Unset | Ref::Leaf { .. } | Ref::Inner { .. } | Ref::Rebuild { .. } =>
            true,
    }
}

/// Marks the words of the rebuild, if the reference is one. Returns false if one of them was marked
/// before.
fn claim_rebuild(marks: &mut Vec<bool>, side: Ref) -> bool
    requires within { AllFit marks.old.items (rebuild_on (Some (ref_meant side))) }
    ensures length { length marks.new.items ≡ length marks.old.items }
    ensures claimed { IsTrue result
        → AreClaimed marks.old.items marks.new.items (rebuild_on (Some (ref_meant side))) }
    ensures refused { (IsTrue result → ⊥)
        → AreRefused marks.old.items (rebuild_on (Some (ref_meant side))) }
{
    match side {
        Ref::Rebuild { base } => claim(marks, u64::from(base), REBUILD_WORDS),
        Ref::Empty | Ref::Unset | Ref::Leaf { .. } | Ref::Inner { .. } | Ref::Change { .. } => true,
    }
}

/// Returns whether the keys of the row are strictly increasing.
fn do_rise<W: WordList>(words: &W, base: u32, degree: u64) -> bool
    requires used { word_at (W.list words.now) next_place ≤ length (W.list words.now) }
    requires most { length (W.list words.now) ≤ place_limit }
    requires row { IsWithinUsed (W.list words.now)
        record { base = base; size = inner_words degree } }
    requires degree { degree ≡ word_rows.row_degree (W.list words.now) base }
    requires some { 2 ≤ degree }
    ensures exact { IsTrue result
        ↔ IsStrictlyIncreasing (word_rows.row_keys (W.list words.now) base) }
{
    for i in 1..degree - 1 {
        if key_at(words, base, degree, i) <= key_at(words, base, degree, i - 1) {
            return false;
        }
    }
    true
}

/// Returns whether the inner row is in good shape, for a slot of this node.
fn is_good_row<W: WordList>(words: &W, base: u32, node: u64) -> bool
    requires some { first_row ≤ length (W.list words.now) }
    requires used { word_at (W.list words.now) next_place ≤ length (W.list words.now) }
    requires most { length (W.list words.now) ≤ place_limit }
    ensures exact { IsTrue result ↔ IsGoodRow (W.list words.now) node base }
{
    // the least row has two slots
    if !is_within(words, u64::from(base), 7) {
        return false;
    }
    let at = u64::from(base);
    let degree = words.word(at + INNER_DEGREE_OFFSET);
    if degree < 2 || degree > words.word(NEXT_PLACE) {
        return false;
    }
    if !is_within(words, u64::from(base), 2 * degree + 3) {
        return false;
    }
    if Status::from_word(words.word(at)).is_none() {
        return false;
    }
    words.word(at + INNER_SIZE_OFFSET) >= 2 && node < at && do_rise(words, base, degree)
}

/// Returns whether the key is in the task's interval.
fn is_for(task: &AuditTask, key: u64) -> bool
    ensures exact { IsTrue result ↔ IsInInterval task.now key }
{
    task.low <= key
        && match task.high {
            None => true,
            Some(high) => key < high,
        }
}

/// Returns the lowest key of child `i` of a row whose lowest key is `low`.
fn child_low<W: WordList>(words: &W, base: u32, degree: u64, low: u64, i: u64) -> u64
    requires used { word_at (W.list words.now) next_place ≤ length (W.list words.now) }
    requires most { length (W.list words.now) ≤ place_limit }
    requires row { IsWithinUsed (W.list words.now)
        record { base = base; size = inner_words degree } }
    requires degree { degree ≡ word_rows.row_degree (W.list words.now) base }
    requires within { i < degree }
    ensures value { result ≡ low_of low (word_rows.row_keys (W.list words.now) base) i }
{
    if i == 0 {
        return low;
    }
    low.max(key_at(words, base, degree, i - 1))
}

/// Returns the bound above the keys of child `i` of a row whose keys are below `high`, if there is
/// one.
fn child_high<W: WordList>(
    words: &W,
    base: u32,
    degree: u64,
    high: Option<u64>,
    i: u64,
) -> Option<u64>
    requires used { word_at (W.list words.now) next_place ≤ length (W.list words.now) }
    requires most { length (W.list words.now) ≤ place_limit }
    requires row { IsWithinUsed (W.list words.now)
        record { base = base; size = inner_words degree } }
    requires degree { degree ≡ word_rows.row_degree (W.list words.now) base }
    requires within { i < degree }
    ensures value { result ≡ high_of high (word_rows.row_keys (W.list words.now) base) i }
{
    if i + 1 == degree {
        return high;
    }
    let key = key_at(words, base, degree, i);
    Some(match high {
        None => key,
        Some(high) => high.min(key),
    })
}

/// Pushes the tasks for the slots of a row onto `left`, the last first.
fn push_children<W: WordList>(
    words: &W,
    base: u32,
    degree: u64,
    task: &AuditTask,
    left: &mut Vec<AuditTask>,
) -> Result<(), AllocError>
    requires used { word_at (W.list words.now) next_place ≤ length (W.list words.now) }
    requires most { length (W.list words.now) ≤ place_limit }
    requires row { IsWithinUsed (W.list words.now)
        record { base = base; size = inner_words degree } }
    requires degree { degree ≡ word_rows.row_degree (W.list words.now) base }
    requires some { 2 ≤ degree }
    ensures left { OnOk result (left.new.items
        ≡ left.old.items ++ reverse (tasks_in_row (W.list words.now) base task.now)) }
{
    let mut i = degree;
    while i > 0 {
        i -= 1;
        left.push(AuditTask {
            place: slot_place(base, degree, i),
            word: slot_at(words, base, degree, i),
            node: u64::from(base),
            low: child_low(words, base, degree, task.low, i),
            high: child_high(words, base, degree, task.high, i),
        })?;
    }
    Ok(())
}

/// Returns what a slot with this word reads as, and marks the words of the change and the rebuild
/// on the way. Returns `None` if it isn't in good shape or one of these words was marked before.
fn claim_way<W: WordList>(words: &W, marks: &mut Vec<bool>, word: u64) -> Option<Ref>
    requires some { first_row ≤ length (W.list words.now) }
    requires used { word_at (W.list words.now) next_place ≤ length (W.list words.now) }
    requires most { length (W.list words.now) ≤ place_limit }
    requires marks { length marks.old.items ≡ word_at (W.list words.now) next_place }
    ensures length { length marks.new.items ≡ length marks.old.items }
    ensures reads { IfSome result (λ found. Reads (W.list words.now) word (ref_meant found)) }
    ensures plain { IfSome result (λ found. IsTreeRef (ref_meant found)) }
    ensures claimed { IfSome result (λ found.
        AreClaimed marks.old.items marks.new.items (rows_on (W.list words.now) (ref_of word))) }
    ensures none { result ≡ None → (visit : Visit) → visit.word ≡ word
        → IsGood (W.list words.now) visit
        → AreRefused marks.old.items (rows_on (W.list words.now) (ref_of word)) }
{
    let Some(found) = Ref::from_word(word) else {
        return None;
    };
    let Some(side) = past_change(words, found) else {
        return None;
    };
    let Some(read) = past_rebuild(words, side) else {
        return None;
    };
    if claim_change(marks, found) && claim_rebuild(marks, side) {
        Some(read)
    } else {
        None
    }
}

/// If the leaf is in good shape and none of its words was marked, marks them, appends its pair to
/// `found`, and returns true.
fn examine_leaf<W: WordList>(
    words: &W,
    base: u32,
    task: &AuditTask,
    marks: &mut Vec<bool>,
    found: &mut Vec<Pair>,
) -> Result<bool, AllocError>
    requires some { first_row ≤ length (W.list words.now) }
    requires used { word_at (W.list words.now) next_place ≤ length (W.list words.now) }
    requires marks { length marks.old.items ≡ word_at (W.list words.now) next_place }
    ensures length { length marks.new.items ≡ length marks.old.items }
    ensures good { IfOk result (λ r. IsTrue r → (visit : Visit) → IsTaskOf visit task.now
        → IsGoodLeaf (W.list words.now) visit base) }
    ensures claimed { IfOk result (λ r. IsTrue r
        → AreClaimed marks.old.items marks.new.items
        (record { base = base; size = leaf_words } ∷ [])) }
    ensures found { IfOk result (λ r. IsTrue r
        → found.new.items
        ≡ found.old.items ++ pairs_read (W.list words.now) (references.LeafAt base)) }
    ensures failed { IfOk result (λ r. (IsTrue r → ⊥) → (visit : Visit) → IsTaskOf visit task.now
        → IsGoodLeaf (W.list words.now) visit base
        → AreRefused marks.old.items (record { base = base; size = leaf_words } ∷ [])) }
{
    if !is_within(words, u64::from(base), LEAF_WORDS) {
        return Ok(false);
    }
    let pair = leaf_pair(words, base);
    if !is_for(task, pair.key) {
        return Ok(false);
    }
    if !claim(marks, u64::from(base), LEAF_WORDS) {
        return Ok(false);
    }
    found.push(pair)?;
    Ok(true)
}

/// If the inner row is in good shape and none of its words was marked, marks them, pushes its slots
/// onto `left`, and returns true.
fn examine_row<W: WordList>(
    words: &W,
    base: u32,
    task: &AuditTask,
    marks: &mut Vec<bool>,
    left: &mut Vec<AuditTask>,
) -> Result<bool, AllocError>
    requires some { first_row ≤ length (W.list words.now) }
    requires used { word_at (W.list words.now) next_place ≤ length (W.list words.now) }
    requires most { length (W.list words.now) ≤ place_limit }
    requires marks { length marks.old.items ≡ word_at (W.list words.now) next_place }
    ensures length { length marks.new.items ≡ length marks.old.items }
    ensures good { IfOk result (λ r. IsTrue r → IsGoodRow (W.list words.now) task.now.node base) }
    ensures claimed { IfOk result (λ r. IsTrue r
        → AreClaimed marks.old.items marks.new.items
        (record { base = base; size = inner_words (word_rows.row_degree (W.list words.now) base) }
        ∷ [])) }
    ensures left { IfOk result (λ r. IsTrue r → left.new.items ≡ left.old.items
        ++ reverse (tasks_in_row (W.list words.now) base task.now)) }
    ensures failed { IfOk result (λ r. (IsTrue r → ⊥)
        → IsGoodRow (W.list words.now) task.now.node base
        → AreRefused marks.old.items
        (record { base = base; size = inner_words (word_rows.row_degree (W.list words.now) base) }
        ∷ [])) }
{
    if !is_good_row(words, base, task.node) {
        return Ok(false);
    }
    let degree = words.word(u64::from(base) + INNER_DEGREE_OFFSET);
    if !claim(marks, u64::from(base), 2 * degree + 3) {
        return Ok(false);
    }
    push_children(words, base, degree, task, left)?;
    Ok(true)
}

/// Checks that a slot is in good shape and shares no word with what was read before. If so, marks
/// the rows that it leads to, adds what it reads as to `found` or `left`, and returns true.
fn examine<W: WordList>(
    words: &W,
    task: &AuditTask,
    marks: &mut Vec<bool>,
    left: &mut Vec<AuditTask>,
    found: &mut Vec<Pair>,
) -> Result<bool, AllocError>
    requires some { first_row ≤ length (W.list words.now) }
    requires used { word_at (W.list words.now) next_place ≤ length (W.list words.now) }
    requires most { length (W.list words.now) ≤ place_limit }
    requires marks { length marks.old.items ≡ word_at (W.list words.now) next_place }
    ensures length { length marks.new.items ≡ length marks.old.items }
    ensures passed { IfOk result (λ r. IsTrue r
        → PassesSlot (W.list words.now) task.now marks.old.items marks.new.items
        left.old.items left.new.items found.old.items found.new.items) }
    ensures failed { IfOk result (λ r. (IsTrue r → ⊥)
        → FailsSlot (W.list words.now) task.now marks.old.items) }
{
    let Some(read) = claim_way(words, marks, task.word) else {
        return Ok(false);
    };
    match read {
        Ref::Leaf { base } => examine_leaf(words, base, task, marks, found),
        Ref::Inner { base } => examine_row(words, base, task, marks, left),
        Ref::Empty | Ref::Unset | Ref::Change { .. } | Ref::Rebuild { .. } => Ok(true),
    }
}

/// Audits the words. Returns the pairs that they hold, if they are lawful at rest, or else the
/// place of the first slot of the walk that breaks the rules.
pub(crate) fn audit_words<W: WordList>(
    alloc: Global,
    words: &W,
) -> Result<Result<Vec<Pair>, u64>, AllocError>
    requires bounds { HasGoodBounds (W.list words.now) }
    ensures sound { IfOk result (λ r. IfOk r (λ found. AreLawful (W.list words.now) found.items)) }
    ensures broken { IfOk result (λ r. IfErr r (λ place.
        BreaksFirstAt (W.list words.now) [] (first_visit (W.list words.now) ∷ []) place)) }
{
    let used = words.word(NEXT_PLACE);
    let first = words.word(ANCHOR_SLOT_PLACE);
    let mut marks = vec![in alloc; false; used as usize]?;
    let mut found = Vec::new(alloc);
    let mut left = Vec::new(alloc);
    left.push(AuditTask {
        place: ANCHOR_SLOT_PLACE,
        word: first,
        node: u64::from(ANCHOR),
        low: 0,
        high: None,
    })?;
    while let Some(task) = left.pop() {
        if !examine(words, &task, &mut marks, &mut left, &mut found)? {
            return Ok(Err(task.place));
        }
    }
    Ok(Ok(found))
}
