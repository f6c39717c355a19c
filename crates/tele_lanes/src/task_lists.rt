//! What the lanes have to do: commands with the lines that they came from.
ghost use Rattle.std.specs.Prelude.{◌≡◌, [], ◌∷◌, ◌++◌, OnOk, OnErr};

use ist_core::Command;
use std::alloc::{AllocError, Global};
use std::marker::Model;

/// A command, and the number of the line that it came from.
#[derive(Clone, Copy, Debug, PartialEq, Eq, Drop)]
pub struct Task {
    pub line: u64,
    pub command: Command,
}

/// Tasks in the order in which they will be done. Contracts see them as a list.
#[derive(Drop)]
pub struct Tasks {
    items: Vec<Task>,
}

impl Model for Tasks {
    ghost use Rattle.std.specs.Prelude.{List};
    ghost use Rattle.tele_lanes.specs.declared.task_lists.Task.{Task};

    ghost Value = { List Task };

    ghost view = { λ t. t.items.items };
}

impl Tasks {
    /// Makes an empty list. Allocates nothing.
    pub fn new(alloc: Global) -> Tasks
        ensures value { result ≡ [] }
    {
        Tasks {
            items: Vec::new(alloc),
        }
    }

    /// Makes the list of these tasks.
    pub fn from_vec(items: Vec<Task>) -> Tasks
        ensures value { result ≡ items.items }
    {
        Tasks { items }
    }

    /// Returns the tasks, in order.
    pub fn as_slice(&self) -> &[Task]
        ensures value { result.now ≡ self.now }
    {
        &self.items
    }

    /// Returns the vector that this was made from. Allocates nothing.
    pub fn into_vec(self) -> Vec<Task>
        ensures value { result.items ≡ self }
    {
        self.items
    }

    /// Appends a task. If memory runs out, the list is unchanged.
    pub fn push(&mut self, task: Task) -> Result<(), AllocError>
        ensures pushed { OnOk result (self.new ≡ self.old ++ task ∷ []) }
        ensures unchanged { OnErr result (self.new ≡ self.old) }
    {
        self.items.push(task)?;
        Ok(())
    }
}
