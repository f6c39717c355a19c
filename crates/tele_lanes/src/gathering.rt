//! The results of the lanes of a round: their answers and the tasks that they left, merged in line
//! order, and the refusal that ended one.
ghost use Rattle.std.specs.Prelude.{◌≡◌, All, IfOk, map};
ghost use Rattle.std.specs.List.{flat_map};
ghost use Rattle.std.specs.List.Sorted.{IsPermutation, IsNonDecreasingBy};
ghost use Rattle.tele_lanes.specs.Lines.{AnswerInOrder};
ghost use Rattle.tele_lanes.specs.Lanes.{HaveOwnLines, unanswered, InLineOrder, TasksInLineOrder};
ghost use Rattle.tele_lanes.specs.Lanes.{first_refusal};

use crate::answer_lists::Answer;
use crate::lanes::Lane;
use crate::task_lists::{Task, Tasks};
use ist_core::{Full, Port};
use std::alloc::{AllocError, Global};

/// Returns all answers of the lanes, by increasing line.
///
/// If no two tasks of the lanes have the same line, and each lane's answers are for the first of
/// its tasks, as `run_lanes` leaves them, no line comes twice. `laws::lanes_can_be_gathered` says
/// so of lanes that were split. The sort goes by the runs that it finds, so lanes with increasing
/// lines are merged.
pub fn gather<P: Port>(alloc: Global, lanes: &[Lane<P>]) -> Result<Vec<Answer>, AllocError>
    ensures same { IfOk result (λ v.
        IsPermutation (flat_map (λ l. l.answers.list) lanes.now) v.items) }
    ensures rising { IfOk result (λ v. IsNonDecreasingBy (λ a. a.line) v.items) }
    ensures gathered { IfOk result (λ v.
        All (λ l. AnswerInOrder l.tasks l.answers.list) lanes.now
        → HaveOwnLines (map (λ l. l.tasks) lanes.now)
        → InLineOrder (map (λ l. l.answers.list) lanes.now) v.items) }
{
    let mut all = Vec::new(alloc);
    for lane in lanes {
        all.extend_from_slice(lane.answers.as_slice())?;
    }
    sort_answers(all)
}

/// Returns the tasks of the lanes that have no answer, by increasing line. Of each lane, as many
/// first tasks as it has answers are left out.
///
/// If no two tasks of the lanes have the same line, no line comes twice.
pub fn open_tasks<P: Port>(alloc: Global, lanes: &[Lane<P>]) -> Result<Tasks, AllocError>
    ensures same { IfOk result (λ ts.
        IsPermutation (flat_map (λ l. unanswered l.tasks l.answers.list) lanes.now) ts) }
    ensures rising { IfOk result (λ ts. IsNonDecreasingBy (λ t. t.line) ts) }
    ensures gathered { IfOk result (λ ts.
        HaveOwnLines (map (λ l. l.tasks) lanes.now)
        → TasksInLineOrder (map (λ l. unanswered l.tasks l.answers.list) lanes.now) ts) }
{
    let mut all = Vec::new(alloc);
    for lane in lanes {
        all.extend_from_slice(lane.unanswered())?;
    }
    sort_tasks(all)
}

/// Returns the refusal of the lowest lane that stopped, if one did.
pub fn first_refusal<P: Port>(lanes: &[Lane<P>]) -> Option<Full>
    ensures { result ≡ first_refusal (map (λ l. l.stopped) lanes.now) }
{
    for lane in lanes {
        if let Some(full) = lane.stopped {
            return Some(full);
        }
    }
    None
}

// Sorts the answers by line.
fn sort_answers(answers: Vec<Answer>) -> Result<Vec<Answer>, AllocError>
    ensures same { IfOk result (λ v. IsPermutation answers.items v.items) }
    ensures rising { IfOk result (λ v. IsNonDecreasingBy (λ a. a.line) v.items) }
{
    let mut answers = answers;
    answers.sort_by_key(|answer| answer.line)?;
    Ok(answers)
}

// Sorts the tasks by line.
fn sort_tasks(tasks: Vec<Task>) -> Result<Tasks, AllocError>
    ensures same { IfOk result (λ ts. IsPermutation tasks.items ts) }
    ensures rising { IfOk result (λ ts. IsNonDecreasingBy (λ t. t.line) ts) }
{
    let mut tasks = tasks;
    tasks.sort_by_key(|task| task.line)?;
    Ok(Tasks::from_vec(tasks))
}
