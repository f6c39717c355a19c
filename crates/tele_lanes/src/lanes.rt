//! Lanes: the tasks of one worker, the port that they go through, and the results.
ghost use Rattle.std.specs.Prelude.{◌≡◌, ◌≤◌, [], length, map, All, Some, None, IfSome, IfNone, slice_get, option_map};
ghost use Rattle.tele_lanes.specs.Lines.{commands_of, AnswerInOrder, CallInOrder, TellReplies};
ghost use Rattle.tele_lanes.specs.Lanes.{unanswered};

use crate::answer_lists::{Answer, Answers};
use crate::gates::Gate;
use crate::task_lists::{Task, Tasks};
use ist_core::{Full, Port};
use std::sync::Wait;
use std::thread;
use std::thread::Threads;

/// One worker's share of a round: its tasks, the port that they go through, and the results.
#[derive(Drop)]
pub struct Lane<P: Port> {
    /// The number of the lane, which is passed to its gate.
    pub number: u32,
    pub tasks: Tasks,
    pub answers: Answers,
    pub port: P,
    /// The refusal that ended the lane, if one did.
    pub stopped: Option<Full>,
}

impl<P: Port> Lane<P> {
    /// Makes a lane that wasn't run. Allocates nothing.
    pub fn new(number: u32, tasks: Tasks, answers: Answers, port: P) -> Lane<P>
        requires empty { answers.list ≡ [] }
        requires room { length tasks ≤ answers.room }
        ensures number { result.number ≡ number }
        ensures tasks { result.tasks ≡ tasks }
        ensures answers { result.answers ≡ answers }
        ensures port { result.port ≡ port }
        ensures stopped { result.stopped ≡ None }
    {
        Lane {
            number,
            tasks,
            answers,
            port,
            stopped: None,
        }
    }

    // Returns the tasks left after dropping as many as there are answers.
    pub(crate) fn unanswered(&self) -> &[Task]
        ensures { result.now ≡ unanswered self.now.tasks self.now.answers.list }
    {
        let tasks = self.tasks.as_slice();
        let done = self.answers.as_slice().len();
        if done < tasks.len() {
            return &tasks[done..];
        }
        &[]
    }

    // Makes the calls of this lane's tasks in order, until one is refused, and keeps the answers.
    fn run<R: Wait, G: Gate>(&mut self, rt: &R, gate: &G)
        requires empty { self.old.answers.list ≡ [] }
        requires room { length self.old.tasks ≤ self.old.answers.room }
        requires no_calls { P.calls self.old.port ≡ [] }
        requires unrefused { P.refused self.old.port ≡ None }

        ensures number { self.new.number ≡ self.old.number }
        ensures tasks { self.new.tasks ≡ self.old.tasks }
        ensures tie { P.tie self.new.port ≡ P.tie self.old.port }

        ensures calls { CallInOrder self.new.tasks (P.calls self.new.port) }
        ensures answers { AnswerInOrder self.new.tasks self.new.answers.list }
        ensures replies { TellReplies (P.calls self.new.port) self.new.answers.list }

        ensures stopped { self.new.stopped ≡ option_map (λ r. r.full) (P.refused self.new.port) }
        ensures refused { IfSome (P.refused self.new.port) (λ r.
            slice_get (commands_of self.new.tasks) (length (P.calls self.new.port))
            ≡ Some r.command) }
        ensures whole { IfNone self.new.stopped
            (length (P.calls self.new.port) ≡ length self.new.tasks) }
    {
        let Lane {
            number,
            tasks,
            answers,
            port,
            stopped,
        } = self;
        *stopped = None;
        for (index, task) in tasks.as_slice().iter().enumerate() {
            gate.before(*number, index as u64);
            let outcome = port.call(rt, task.command);
            gate.after(*number, index as u64);
            match outcome {
                Ok(reply) => answers.keep(Answer {
                    line: task.line,
                    reply,
                }),
                Err(full) => {
                    *stopped = Some(full);
                    return;
                }
            }
        }
    }
}

/// Runs the lanes side by side and returns once all have ended. Each runs in its own thread; if no
/// thread can be started, the caller runs that lane itself.
///
/// A lane makes the calls of its tasks in order, until one is refused. It waits for whatever its
/// port and its gate wait for. Allocates nothing, and never fails.
pub fn run_lanes<R: Threads + Wait + Sync, P: Port + Send, G: Gate + Sync>(
    rt: &R,
    gate: &G,
    lanes: &mut [Lane<P>],
)
    requires empty { All (λ l. l.answers.list ≡ []) lanes.old }
    requires room { All (λ l. length l.tasks ≤ l.answers.room) lanes.old }
    requires no_calls { All (λ l. P.calls l.port ≡ []) lanes.old }
    requires unrefused { All (λ l. P.refused l.port ≡ None) lanes.old }

    ensures numbers { map (λ l. l.number) lanes.new ≡ map (λ l. l.number) lanes.old }
    ensures tasks { map (λ l. l.tasks) lanes.new ≡ map (λ l. l.tasks) lanes.old }
    ensures ties { map (λ l. P.tie l.port) lanes.new ≡ map (λ l. P.tie l.port) lanes.old }

    // The calls were made for a first part of the tasks, in order, and each call has its answer.
    ensures calls { All (λ l. CallInOrder l.tasks (P.calls l.port)) lanes.new }
    ensures answers { All (λ l. AnswerInOrder l.tasks l.answers.list) lanes.new }
    ensures replies { All (λ l. TellReplies (P.calls l.port) l.answers.list) lanes.new }

    // A lane stops only if its port refuses the first task without an answer.
    ensures stopped { All (λ l. l.stopped ≡ option_map (λ r. r.full) (P.refused l.port)) lanes.new }
    ensures refused { All (λ l. IfSome (P.refused l.port) (λ r.
        slice_get (commands_of l.tasks) (length (P.calls l.port)) ≡ Some r.command)) lanes.new }
    ensures whole { All (λ l. IfNone l.stopped
        (length (P.calls l.port) ≡ length l.tasks)) lanes.new }
{
    // `for_each_mut` requires at least one thread. It starts none if there are no lanes.
    let count = lanes.len().max(1);
    thread::for_each_mut(rt, lanes, count, &|_, lane| lane.run(rt, gate));
}
