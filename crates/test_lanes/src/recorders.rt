//! A port that keeps what it is asked, lanes with it, and a gate that counts.
ghost use Rattle.std.specs.Prelude.{◌≡◌, ◌≤◌, [], None, IfOk, length, map};
ghost use Rattle.std.specs.Option.{option_map};

use ist_core::{Command, Full, Port, Reply};
use std::alloc::{AllocError, Global};
use std::sync::Wait;
use std::sync::atomic::{AtomicU64, Ordering};
use tele_lanes::{Answers, Gate, Lane, Tasks};

/// The refusal of the port.
pub(crate) const FULL: Full = Full {
    next: 1,
    asked: 1,
    words: 1,
};

/// Replies to each get with its key and to all else with nothing, until its room is used.
#[derive(Drop)]
pub(crate) struct Recorder {
    pub(crate) told: Vec<(Command, Reply)>,
    pub(crate) refused: Option<Command>,
}

impl Port for Recorder {
    type Tie = ();

    ghost calls = { λ p. map (λ e. record { command = e.0; reply = e.1 }) p.told.items };

    ghost refused = { λ p. option_map (λ c. record {
      command = c;
      full = record { next = 1; asked = 1; words = 1 };
    }) p.refused };

    ghost tie = { λ p. tt };

    fn call<R: Wait>(&mut self, rt: &R, command: Command) -> Result<Reply, Full> {
        if self.told.len() == self.told.capacity() {
            self.refused = Some(command);
            return Err(FULL);
        }
        let reply = match command {
            Command::Get { key } => Some(key),
            Command::Put { .. } | Command::Remove { .. } => None,
        };
        self.told.push_reserved((command, reply));
        Ok(reply)
    }
}

/// Makes a lane of these tasks, with a recorder with room for `calls` calls.
pub(crate) fn idle_lane(
    alloc: Global,
    number: u32,
    tasks: Tasks,
    calls: usize,
) -> Result<Lane<Recorder>, AllocError>
    ensures number { IfOk result (λ l. l.number ≡ number) }
    ensures tasks { IfOk result (λ l. l.tasks ≡ tasks) }
    ensures empty { IfOk result (λ l. l.answers.list ≡ []) }
    ensures room { IfOk result (λ l. length l.tasks ≤ l.answers.room) }
    ensures no_calls { IfOk result (λ l. l.port.told.items ≡ []) }
    ensures unrefused { IfOk result (λ l. l.port.refused ≡ None) }
{
    let answers = Answers::with_room(alloc, tasks.as_slice().len())?;
    let port = Recorder {
        told: Vec::with_capacity(alloc, calls)?,
        refused: None,
    };
    Ok(Lane::new(number, tasks, answers, port))
}

/// Adds the number of each call, counted from 1, before it, and a thousand times that after it.
#[derive(Drop)]
pub(crate) struct Counter {
    pub(crate) told: AtomicU64,
}

impl Gate for Counter {
    fn before(&self, lane: u32, index: u64) {
        self.told.fetch_add(index.wrapping_add(1), Ordering::SeqCst);
    }

    fn after(&self, lane: u32, index: u64) {
        self.told
            .fetch_add(index.wrapping_add(1).wrapping_mul(1000), Ordering::SeqCst);
    }
}
