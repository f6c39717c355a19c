//! The tables of a shelf that keeps them.
ghost use Rattle.std.specs.Prelude.{All, IsSome};

use arrayvec::ArrayVec;

/// How many tables `Kept` keeps.
pub(crate) const ROOM: usize = 8;

/// A shelf that keeps the first eight tables that it is given, and drops each further one.
///
/// It reports its tables until it is given a ninth. It allocates nothing.
#[derive(Drop)]
pub struct Kept<C> {
    pub(crate) places: ArrayVec<Option<C>, ROOM>,
    pub(crate) has_all: bool,
    ghost present: { All IsSome places.items },
}
