//! An update, and what it returns.
ghost use Rattle.std.specs.Prelude.{◌≡◌};
ghost use Rattle.ist_updates.specs.Asking.{command_for};
ghost use Rattle.ist_updates.specs.Meeting.{due_in, reply_in};

use ist_core::{Command, Reply};

/// At which value of its key an update should take effect.
#[derive(Clone, Copy, Drop)]
pub enum When {
    /// At any value, and also if the key has no value.
    Always,
    /// Only at this value, or with `None` only if the key has no value.
    Had(Reply),
}

/// One put or remove of a key.
#[derive(Clone, Copy, Drop)]
pub struct Update {
    pub key: u64,
    /// The value to put, or `None` to remove the key.
    pub value: Option<u64>,
    pub when: When,
}

impl Update {
    /// The put or remove as a command of the map.
    pub fn command(self) -> Command
        ensures value { result ≡ command_for self.key self.value }
    {
        match self.value {
            Some(value) => Command::Put {
                key: self.key,
                value,
            },
            None => Command::Remove { key: self.key },
        }
    }
}

/// A row whose count reached its limit, with the slot of its parent that holds it.
#[derive(Clone, Copy, Debug, PartialEq, Eq, Drop)]
pub struct Due {
    pub parent: u32,
    pub index: u64,
    pub target: u32,
}

/// What an update that took effect leaves.
#[derive(Clone, Copy, Drop)]
pub struct Applied {
    /// The value that the key had before.
    pub reply: Reply,
    /// The topmost row that the update made due.
    pub due: Option<Due>,
}

/// How an update ended.
#[derive(Clone, Copy, Drop)]
pub enum Outcome {
    /// It took effect, and was counted at the rows on its way.
    Took(Applied),
    /// There is nothing to remove.
    Nothing,
    /// The key has a value at which the update shouldn't take effect.
    Unmet,
}

impl Outcome {
    /// The value that the key had before the update took effect.
    pub fn reply(self) -> Reply
        ensures value { result ≡ reply_in self }
    {
        match self {
            Outcome::Took(done) => done.reply,
            Outcome::Nothing => None,
            Outcome::Unmet => None,
        }
    }

    /// The topmost row that the update made due.
    pub fn due(self) -> Option<Due>
        ensures value { result ≡ due_in self }
    {
        match self {
            Outcome::Took(done) => done.due,
            Outcome::Nothing => None,
            Outcome::Unmet => None,
        }
    }
}
