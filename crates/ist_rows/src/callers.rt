//! A caller, and the rows that it holds in addition to its builds.
ghost use Rattle.std.specs.Prelude.{◌≡◌};
ghost use Rattle.ist_rows.specs.Rows.{spares_of, row_of, with_spare};

use crate::kinds::Kind;
use ist_rule::TreeToken;

/// The token of one caller with its number, and the row of each kind that it holds, by its base.
///
/// A step on the token that publishes such a row must be followed by setting its field to `None`.
#[derive(Drop)]
pub struct Caller {
    pub token: TreeToken,
    pub number: u32,
    pub leaf: Option<u32>,
    pub pair: Option<u32>,
    pub change: Option<u32>,
    pub rebuild: Option<u32>,
}

impl Caller {
    // Returns the row of this kind that the caller holds.
    pub(crate) fn row(&self, kind: Kind) -> Option<u32>
        ensures value { result ≡ row_of kind (spares_of self.now) }
    {
        match kind {
            Kind::Leaf => self.leaf,
            Kind::Pair => self.pair,
            Kind::Change => self.change,
            Kind::Rebuild => self.rebuild,
        }
    }

    // Notes that the caller holds this row of this kind.
    pub(crate) fn hold(&mut self, kind: Kind, base: u32)
        ensures value { spares_of self.new ≡ with_spare kind base (spares_of self.old) }
        ensures same { (self.new.token ≡ self.old.token) × (self.new.number ≡ self.old.number) }
    {
        match kind {
            Kind::Leaf => self.leaf = Some(base),
            Kind::Pair => self.pair = Some(base),
            Kind::Change => self.change = Some(base),
            Kind::Rebuild => self.rebuild = Some(base),
        }
    }
}
