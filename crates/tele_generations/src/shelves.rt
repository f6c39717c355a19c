//! Where the tables go that a round no longer needs.
ghost use Rattle.std.specs.Prelude.{◌≡◌, [], ◌∷◌, ◌++◌, ◌<◌, ◌≤◌, List, Option, Some, None, length, slice_get, option_copied};
ghost use Rattle.tele_generations.specs.Shelves.{IsShelved, tables_in, shelf_report};

use crate::kept::{Kept, ROOM};
use arrayvec::ArrayVec;

/// Takes the closed tables that a round no longer needs.
pub trait Shelf<C> {
    // the tables that were put on the shelf, in order, if it reports them
    ghost kept: { Self → Option (List C) };

    /// Puts a table after the others.
    fn keep(&mut self, closed: C)
        ensures kept { IsShelved (kept self.old) (closed ∷ []) (kept self.new) };
}

/// A shelf that drops each table and reports nothing.
#[derive(Clone, Copy, Drop)]
pub struct NoShelf;

impl<C: Drop> Shelf<C> for NoShelf {
    ghost kept = { λ _. None };

    fn keep(&mut self, closed: C) {}
}

impl<C: Drop> Kept<C> {
    /// Makes an empty shelf.
    pub fn new() -> Kept<C>
        ensures told { shelf_report result ≡ Some [] }
        ensures empty { tables_in result ≡ [] }
    {
        Kept {
            places: ArrayVec::new(),
            has_all: true,
        }
    }

    /// Returns the table of this number, if it is kept; tables are counted from 0 in the order in
    /// which they came.
    pub fn get(&self, number: usize) -> Option<&C>
        ensures value { option_copied result ≡ slice_get (tables_in self.now) number }
    {
        let places = self.places.as_slice();
        if number < places.len() {
            places[number].as_ref()
        } else {
            None
        }
    }
}

impl<C: Drop> Shelf<C> for Kept<C> {
    ghost kept = { shelf_report };

    fn keep(&mut self, closed: C)
        ensures kept { IsShelved (shelf_report self.old) (closed ∷ []) (shelf_report self.new) }
        ensures taken { length (tables_in self.old) < ROOM →
            tables_in self.new ≡ tables_in self.old ++ closed ∷ [] }
        ensures told { length (tables_in self.old) < ROOM →
            shelf_report self.old ≡ Some (tables_in self.old) →
            shelf_report self.new ≡ Some (tables_in self.new) }
        ensures let_go { ROOM ≤ length (tables_in self.old) →
            tables_in self.new ≡ tables_in self.old }
    {
        if self.places.len() < ROOM {
            self.places.push(Some(closed));
        } else {
            self.has_all = false;
        }
    }
}
