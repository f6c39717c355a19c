//! The table and its tokens, as contracts see them.
ghost use Rattle.std.specs.Prelude.{◌≡◌, ◌≤◌, ◌^◌};
ghost use Rattle.ist_rule.specs.Faces.{word_count_of};

use crate::view::{About, TreeRule, View};
use atomic_table::{Seat, Table};
use std::alloc::Global;
use std::marker::Model;

/// The words of a tree, shared by the threads that have tokens of it.
///
/// Contracts see which table it is, with its number of words, and its start pairs.
#[derive(Drop)]
pub struct TreeTable {
    pub(crate) table: Table<(), View, About, TreeRule, Global>,
}

impl Model for TreeTable {
    ghost use Rattle.std.specs.Prelude.{◌≡◌, ◌≤◌, ◌^◌};
    ghost use Rattle.ist_rule.specs.Faces.{TableFace, name_of};

    ghost Value = { TableFace };

    ghost view = { λ t. record { table = name_of t.table.shared.table_id; start = t.table.shared.key.start.value.items } };

    ghost invariant = { λ t. (t.table.shared.table_id.words ≡ t.table.shared.key.words)
        × (4 ≤ t.table.shared.key.words) × (t.table.shared.key.words ≤ 2 ^ 28)
        × (t.table.shared.table_id.slots ≡ 0) };
}

/// The token by which one thread steps on the words. It has no bytes.
///
/// Contracts see what the token knows, which table it is of included.
#[derive(Drop)]
pub struct TreeToken {
    pub(crate) seat: Seat<(), View>,
}

impl Model for TreeToken {
    ghost use Rattle.std.specs.Prelude.{◌≡◌, []};
    ghost use Rattle.ist_rule.specs.Rule.{IsSound};
    ghost use Rattle.ist_rule.specs.Faces.{TokenFace, name_of};

    ghost Value = { TokenFace };

    ghost view = { λ s. record { view = s.seat.me.0 } };

    ghost invariant = { λ s. (s.seat.me.1 ≡ []) × IsSound s.seat.me.0
        × (s.seat.me.0.words ≡ s.seat.table_id.words)
        × (s.seat.me.0.table ≡ name_of s.seat.table_id) };
}

/// Returns how many words the table has.
pub fn word_count(table: &TreeTable) -> u64
    ensures value { result ≡ word_count_of table.now }
    ensures within { (4 ≤ result) × (result ≤ 2 ^ 28) }
{
    table.table.word_count() as u64
}
