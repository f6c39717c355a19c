//! The commands of made lines, one after another.
ghost use Rattle.std.specs.Prelude.{◌≡◌};
ghost use Rattle.tele_jobs.specs.Made.{next_number, made_command};

use ist_core::Command;
use std::marker::Model;

/// The factor by which each number is multiplied to get the next.
const FACTOR: u64 = 6_364_136_223_846_793_005;

/// What is then added.
const STEP: u64 = 1_442_695_040_888_963_407;

/// Makes commands from a number. Contracts see the number from which the last command was made; at
/// first this is the seed.
#[derive(Drop)]
pub struct CommandMaker {
    number: u64,
}

impl Model for CommandMaker {
    ghost use Rattle.std.specs.Prelude.{ℕ};

    ghost Value = { ℕ };

    ghost view = { λ m. m.number };
}

impl CommandMaker {
    /// Makes a maker that has made nothing.
    pub fn new(seed: u64) -> CommandMaker
        ensures value { result ≡ seed }
    {
        CommandMaker { number: seed }
    }

    /// Returns the next command.
    pub fn make(&mut self) -> Command
        ensures value { result ≡ made_command (next_number self.old) }
        ensures next { self.new ≡ next_number self.old }
    {
        self.number = self.number.wrapping_mul(FACTOR).wrapping_add(STEP);
        let key = (self.number >> 40) % 65_536;
        match self.number >> 61 {
            0..=4 => Command::Put {
                key,
                value: (self.number >> 8) % 65_536,
            },
            5 => Command::Remove { key },
            _ => Command::Get { key },
        }
    }
}
