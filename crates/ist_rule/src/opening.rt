//! Opening and closing a table, and what holds of each token.
ghost use Rattle.std.specs.Prelude.{◌≡◌, IfOk, length};
ghost use Rattle.std.specs.Mem.Slots.{slots_items, slots_len, IsFull};
ghost use Rattle.ist_core.specs.StartLayout.{start};
ghost use Rattle.ist_core.specs.Images.{IsImage};
ghost use Rattle.ist_core.specs.Lawful.{CanOpen};
ghost use Rattle.ist_rule.specs.declared.view.View.{View};
ghost use Rattle.ist_rule.specs.Rule.{opened_view, IsSound};
ghost use Rattle.ist_rule.specs.Faces.{word_count_of};
ghost use Rattle.ist_rule.specs.Seating.{HasImage, IsLast, IsNewMaker};

use crate::table::{TreeTable, TreeToken};
use crate::view::About;
use atomic_table::{Closed, Table};
use ist_core::Pair;
use std::alloc::{AllocError, Global};
use std::marker::Brand;
use std::snapshot::Snapshot;

/// Makes a table of these words, and the maker's token, which has seen nothing yet.
///
/// The words are the image of a new tree of the pairs. Fails only if memory runs out.
pub fn open_table(
    alloc: Global,
    image: Vec<u64>,
    pairs: &Vec<Pair>,
) -> Result<(TreeTable, TreeToken), AllocError>
    requires opens { CanOpen pairs.now.items (length image.items) }
    requires image { IsImage (start pairs.now.items (length image.items)) image.items }
    ensures words { IfOk result (λ t. word_count_of t.0 ≡ length image.items) }
    ensures start { IfOk result (λ t. t.0.start ≡ pairs.now.items) }
    ensures token { IfOk result (λ t.
        t.1.view ≡ opened_view t.0.table pairs.now.items (length image.items)) }
{
    open_table_over(alloc, image.as_slice(), pairs)
}

/// Opens a table as `open_table` does, but the words stay the caller's. They are copied into the
/// table, so their memory may serve for the image of the next one.
///
/// As long as the maker enters no caller, the words of its table are the image of a new tree.
pub fn open_table_over(
    alloc: Global,
    image: &[u64],
    pairs: &Vec<Pair>,
) -> Result<(TreeTable, TreeToken), AllocError>
    requires opens { CanOpen pairs.now.items (length image.now) }
    requires image { IsImage (start pairs.now.items (length image.now)) image.now }
    ensures words { IfOk result (λ t. word_count_of t.0 ≡ length image.now) }
    ensures start { IfOk result (λ t. t.0.start ≡ pairs.now.items) }
    ensures token { IfOk result (λ t.
        t.1.view ≡ opened_view t.0.table pairs.now.items (length image.now)) }
    ensures first { (v : View) → IsNewMaker v → HasImage v (start v.start v.words) }
{
    let about = About {
        start: Snapshot::of(pairs),
        words: image.len() as u64,
    };
    let (table, mut seat) = Table::of_words(alloc, image, &about)?;
    // No event: a load of word 0, at which the token's view learns which table it is of.
    table.shared.load::<Brand>(&mut seat, 0);
    Ok((TreeTable { table }, TreeToken { seat }))
}

/// Gives the caller what holds of each token's view. It costs nothing.
pub fn know(token: &TreeToken)
    ensures sound { IsSound token.now.view }
    ensures words { token.now.view.words ≡ token.now.view.table.words }
{
    let _ = &token.seat;
}

/// Returns the words after the last step, without a copy.
///
/// They are the image of a lawful log that goes on from the token's own by events of others.
pub fn close(table: TreeTable, token: TreeToken) -> Closed<(), Global>
    requires same_table { token.view.table ≡ table.table }
    ensures full { IsFull result.words × IsFull result.slots }
    ensures counts { (slots_len result.words ≡ word_count_of table) × (slots_len result.slots ≡ 0) }
    ensures words { IsLast token.view (slots_items result.words) }
{
    table.table.close_with(token.seat)
}
