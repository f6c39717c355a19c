//! The status of a node, and the decision and the kind of a change, as words.
ghost use Rattle.std.specs.Prelude.{◌≡◌, IfSome};
ghost use Rattle.std.specs.Option.{option_map};
ghost use Rattle.ist_core.specs.Statuses.{status_word, status_of};

/// The decision of a change that no one has decided yet.
pub const UNDECIDED: u64 = 0;
/// The decision of a change that takes effect.
pub const DECIDED_YES: u64 = 1;
/// The decision of a change that has no effect.
pub const DECIDED_NO: u64 = 2;

/// The kind of a change that puts a key with a value.
pub const PUT_KIND: u64 = 1;
/// The kind of a change that takes a key away.
pub const REMOVE_KIND: u64 = 2;
/// The kind of a change that replaces a node by a rebuild.
pub const START_KIND: u64 = 3;
/// The kind of a change that replaces a rebuild by the new subtree.
pub const FINISH_KIND: u64 = 4;

/// The word of an open node.
pub const OPEN_WORD: u64 = 0;

/// The word of a marked node that isn't finished.
pub const MARKED_WORD: u64 = 1;

/// Whether a node takes updates, and how many keys are below it once all its slots were passed.
#[derive(Clone, Copy, Debug, PartialEq, Eq, Drop)]
pub enum Status {
    /// The node is open: updates of its slots may take effect.
    Clear,
    /// No update of a slot of the node takes effect any more.
    Marked,
    /// All slots were passed: this many keys are below the node.
    Finished { keys: u32 },
}

impl Status {
    ghost use Rattle.ist_layout.specs.Meanings.{status_meant};

    /// Returns the word for this status in a node.
    pub fn to_word(self) -> u64
        ensures value { result ≡ status_word (status_meant self) }
    {
        match self {
            Status::Clear => OPEN_WORD,
            Status::Marked => MARKED_WORD,
            Status::Finished { keys } => 4 * u64::from(keys) + 3,
        }
    }

    /// Returns the status with this word, or `None` if no status has it.
    pub fn from_word(word: u64) -> Option<Status>
        ensures value { option_map status_meant result ≡ status_of word }
        ensures same_word { IfSome result (λ found. status_word (status_meant found) ≡ word) }
    {
        match word {
            OPEN_WORD => Some(Status::Clear),
            MARKED_WORD => Some(Status::Marked),
            _ if word % 4 == 3 && word / 4 <= u64::from(u32::MAX) => Some(Status::Finished {
                keys: (word / 4) as u32,
            }),
            _ => None,
        }
    }
}
