//! The conditions of events, by name.

use std::fmt;

/// A condition of some kind of event.
#[derive(Clone, Copy, Debug, PartialEq, Eq, Drop)]
pub enum Condition {
    /// The caller has entered.
    Known,
    /// The caller's number is the number of callers before it.
    Number,
    /// The caller's number is below the limit.
    BelowLimit,
    /// The row begins at the first free word.
    BaseIs,
    /// There is room for the row.
    Room,
    /// What the caller then holds is fair.
    Fair,
    /// The first row is a change at the base.
    RowsAre,
    /// The caller holds each of the rows.
    Held,
    /// The change is the caller's.
    Owned,
    /// The change is undecided.
    Unset,
    /// The slot holds the word.
    InSlot,
    /// The node is linked or was.
    Linked,
    /// No change of the caller on the node was decided no.
    Unrefused,
    /// The change meets the condition of its kind.
    Fits,
    /// The row is published.
    Published,
    /// The change's node is open.
    NodeOpen,
    /// A yes needs an Okay of the change, and a no needs a node that isn't open.
    Outcome,
    /// The change is decided.
    Decided,
    /// A put or remove of the caller was decided yes last, and not counted at the node since.
    Uncounted,
    /// The node is on the chain of that put or remove.
    OnChain,
    /// The row is open.
    RowOpen,
    /// There is a cause to mark the row.
    Called,
    /// The row is marked.
    Marked,
    /// The word doesn't name a change.
    NoChange,
    /// The word is set.
    Set,
    /// Each slot was passed, and the passed words count for this many keys.
    Passed,
    /// The rebuild is started.
    Started,
    /// The rebuild has no root yet.
    Rootless,
    /// The rebuild's target is finished.
    Finished,
    /// The word and the rows are the root over the target's leaves, each row once.
    Root,
    /// The rebuild has a root.
    Rooted,
    /// The target has enough keys that its root is shared.
    Shared,
    /// The part is the rebuild's draw word.
    PartIs,
    /// No part that the caller drew before is past the last.
    NotPast,
    /// The root's slot isn't built yet.
    Free,
    /// The word and the rows are the ideal subtree over the part's leaves, each row once.
    Ideal,
    /// The rows are a pair row that may be too low, or a build that comes too late.
    Cause,
}

// The text of `Uncounted`, which like the next three is too long for a line of `fmt`.
const UNCOUNTED: &str =
    "a put or remove of the caller was decided yes last, and not counted at the node since";

// The text of `Root`.
const ROOT: &str = "the word and the rows are the root over the target's leaves, each row once";

// The text of `Ideal`.
const IDEAL: &str =
    "the word and the rows are the ideal subtree over the part's leaves, each row once";

// The text of `Cause`.
const CAUSE: &str = "the rows are a pair row that may be too low, or a build that comes too late";

impl fmt::Display for Condition {
    fn fmt<W: fmt::Write>(&self, f: &mut fmt::Formatter<W>) -> fmt::Result {
        f.write_str(match self {
            Self::Known => "the caller has entered",
            Self::Number => "the caller's number is that of those before it",
            Self::BelowLimit => "the caller's number lies below the limit",
            Self::BaseIs => "the row begins at the first free word",
            Self::Room => "there is room for the row",
            Self::Fair => "what the caller then holds is fair",
            Self::RowsAre => "the first row is a change at the base",
            Self::Held => "the caller holds each of the rows",
            Self::Owned => "the change is the caller's",
            Self::Unset => "the change is undecided",
            Self::InSlot => "the slot holds the word",
            Self::Linked => "the node is linked or was",
            Self::Unrefused => "no change of the caller on the node was decided no",
            Self::Fits => "the change meets the condition of its kind",
            Self::Published => "the row is published",
            Self::NodeOpen => "the change's node is open",
            Self::Outcome => "yes takes an Okay of the change, and no a node that isn't open",
            Self::Decided => "the change is decided",
            Self::Uncounted => UNCOUNTED,
            Self::OnChain => "the node lies on the chain of that put or remove",
            Self::RowOpen => "the row is open",
            Self::Called => "there is a cause to mark the row",
            Self::Marked => "the row is marked",
            Self::NoChange => "the word is none of a change",
            Self::Set => "the word is set",
            Self::Passed => "each slot was passed, and the passed words count for so many keys",
            Self::Started => "the rebuild is started",
            Self::Rootless => "the rebuild has no root yet",
            Self::Finished => "the rebuild's target is finished",
            Self::Root => ROOT,
            Self::Rooted => "the rebuild has a root",
            Self::Shared => "the target has so many keys that its root is shared",
            Self::PartIs => "the part is the rebuild's draw word",
            Self::NotPast => "no part that the caller drew before lay past the last",
            Self::Free => "the root's slot isn't built yet",
            Self::Ideal => IDEAL,
            Self::Cause => CAUSE,
        })
    }
}
