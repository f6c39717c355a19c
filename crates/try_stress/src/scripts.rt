//! The calls of a map's workers, drawn from the seed, and what they were told.
ghost use Rattle.std.specs.Prelude.{◌≤◌};

use crate::plans::{MOST_PASSES, Plan};
use ist_core::{Command, Reply};
use std::alloc::{AllocError, Global};
use test_tools::{Asked, Draws, Kind, Told};

// The value of a put: no two puts of all rounds have the same.
fn value_of(plan: &Plan, round: u64, pass: u64, call: u64) -> u64 {
    let before = round.wrapping_mul(plan.passes).wrapping_add(pass);
    let number = before.wrapping_mul(plan.calls).wrapping_add(call);
    number.wrapping_mul(2)
}

// One call.
fn draw(plan: &Plan, draws: &mut Draws, value: u64) -> Command
    requires some { 1 ≤ plan.now.span }
{
    let kind = plan.shares.kind_at(draws.below(plan.shares.all().max(1)));
    let key = draws.below(plan.span);
    match kind {
        Kind::Put => Command::Put { key, value },
        Kind::Remove => Command::Remove { key },
        Kind::Find | Kind::Freeze => Command::Get { key },
    }
}

/// Draws the calls of a worker in a round.
pub(crate) fn draw_all(
    alloc: Global,
    plan: &Plan,
    round: u64,
    pass: u64,
) -> Result<Vec<Command>, AllocError>
    requires some { 1 ≤ plan.now.span }
{
    let seed = plan.seed.wrapping_add(round.wrapping_mul(MOST_PASSES));
    let mut draws = Draws::for_thread(seed, pass);
    let mut commands = Vec::new(alloc);
    for call in 0..plan.calls {
        commands.push(draw(plan, &mut draws, value_of(plan, round, pass, call)))?;
    }
    Ok(commands)
}

// What a call asked.
fn asked(command: Command) -> Asked {
    match command {
        Command::Put { key, value } => Asked::Put(key, value),
        Command::Remove { key } => Asked::Remove(key),
        Command::Get { key } => Asked::Find(key),
    }
}

/// Returns what a worker was told, for the judge.
pub(crate) fn tale(
    alloc: Global,
    commands: &[Command],
    replies: &[Reply],
) -> Result<Vec<Told>, AllocError> {
    let mut told = Vec::new(alloc);
    for (command, reply) in commands.iter().zip(replies.iter()) {
        told.push(Told {
            asked: asked(*command),
            reply: *reply,
        })?;
    }
    Ok(told)
}
