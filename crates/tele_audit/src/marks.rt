//! Which words were read as part of a row.
ghost use Rattle.std.specs.Prelude.{◌≡◌, ◌+◌, ◌<◌, ◌≤◌, ◌∷◌, List, length, IsTrue};
ghost use Rattle.ist_rest.specs.WordRows.{Span};
ghost use Rattle.ist_rest.specs.Walks.{IsApartFrom};
ghost use Rattle.tele_audit.specs.Auditing.{AreMarked};

/// Marks the words of a row, unless one of them is marked, and returns whether it did. It takes
/// about as many steps as the row has words.
pub(crate) fn claim(marks: &mut Vec<bool>, base: u64, size: u64) -> bool
    requires within { base + size ≤ length marks.old.items }
    requires some { 0 < size }
    ensures length { length marks.new.items ≡ length marks.old.items }
    ensures claimed { IsTrue result → (seen : List Span) → AreMarked marks.old.items seen
        → IsApartFrom seen record { base = base; size = size }
        × AreMarked marks.new.items (record { base = base; size = size } ∷ seen) }
    ensures refused { (IsTrue result → ⊥) → (seen : List Span) → AreMarked marks.old.items seen
        → IsApartFrom seen record { base = base; size = size } → ⊥ }
{
    let from = base as usize;
    let to = (base + size) as usize;
    for place in from..to {
        if marks[place] {
            return false;
        }
    }
    for place in from..to {
        marks[place] = true;
    }
    true
}
