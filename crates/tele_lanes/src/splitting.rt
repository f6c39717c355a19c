//! Which lane a task goes to.
ghost use Rattle.std.specs.Prelude.{◌≡◌, ◌%◌, ◌≤◌, [], IfOk};
ghost use Rattle.ist_core.specs.Map.{key_of};
ghost use Rattle.tele_lanes.specs.Lanes.{all_lane_tasks};

use crate::task_lists::{Task, Tasks};
use ist_core::Command;
use std::alloc::{AllocError, Global};

/// Returns the lane for the lines of this timestamp: the timestamp modulo the number of workers. So
/// all lines of one timestamp go to one lane.
pub fn lane_of(timestamp: u64, workers: u32) -> u32
    requires { 1 ≤ workers }
    ensures { result ≡ timestamp % workers }
{
    (timestamp % u64::from(workers)) as u32
}

/// Returns the tasks of each lane, lane by lane, in the order of `tasks`.
///
/// Takes time in proportion to the tasks and the workers.
pub fn split(alloc: Global, tasks: &[Task], workers: u32) -> Result<Vec<Tasks>, AllocError>
    requires some { 1 ≤ workers }
    requires at_most { workers ≤ 64 }
    ensures lanes { IfOk result (λ v. v.items ≡ all_lane_tasks workers tasks.now) }
{
    let mut lanes = idle(alloc, workers)?;
    for task in tasks {
        let lane = lane_of(timestamp_of(task.command), workers);
        lanes[lane as usize].push(*task)?;
    }
    Ok(lanes)
}

// Makes lanes without tasks.
fn idle(alloc: Global, workers: u32) -> Result<Vec<Tasks>, AllocError>
    ensures { IfOk result (λ v. v.items ≡ all_lane_tasks workers []) }
{
    let mut lanes = Vec::new(alloc);
    for lane in 0..workers {
        lanes.push(Tasks::new(alloc))?;
    }
    Ok(lanes)
}

// Returns the key that the command names.
fn timestamp_of(command: Command) -> u64
    ensures { result ≡ key_of command }
{
    match command {
        Command::Put { key, .. } | Command::Remove { key } | Command::Get { key } => key,
    }
}
