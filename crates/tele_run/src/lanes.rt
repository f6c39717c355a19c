//! The lanes of one tree: making them, gathering their answers, and taking their passes back.
ghost use Rattle.std.specs.Prelude.{◌≡◌, ◌+◌, ◌<◌, ◌≤◌, map, All, IfOk};
ghost use Rattle.tele_lanes.specs.Lines.{AnswerInOrder};
ghost use Rattle.tele_lanes.specs.Lanes.{all_lane_tasks, HaveOwnLines, unanswered, first_refusal};
ghost use Rattle.tele_lanes.specs.Lanes.{InLineOrder, TasksInLineOrder};
ghost use Rattle.tele_run.specs.Ends.{AreMade, IsNew};

use crate::trees::Came;
use ist_tree::{Holds, Maker, Pass, Tree, TreePort};
use std::alloc::{AllocError, Global};
use tele_lanes::{Answers, Lane, Task, Tasks, first_refusal, gather, open_tasks, split};

// Makes `count` lanes in the order of passes, each with its number, the tasks of its keys and its
// own pass.
pub(crate) fn make_lanes<'a>(
    alloc: Global,
    tree: &'a Tree,
    maker: &mut Maker,
    tasks: &[Task],
    count: u32,
) -> Result<Vec<Lane<TreePort<'a>>>, AllocError>
    requires same_tree { maker.old.tree ≡ tree.now }
    requires no_passes { maker.old.made ≡ 0 }
    requires some { 1 ≤ count }
    requires at_most { count ≤ 64 }
    ensures tasks { IfOk result (λ v.
        map (λ l. l.tasks) v.items ≡ all_lane_tasks count tasks.now) }
    ensures made { IfOk result (λ v. AreMade tree.now maker.old maker.new v.items) }
{
    let parts = split(alloc, tasks, count)?;
    let mut lanes = Vec::new(alloc);
    for mine in parts {
        let number = lanes.len() as u32;
        lanes.push(make_lane(alloc, tree, maker, number, mine)?)?;
    }
    Ok(lanes)
}

// Makes a lane of these tasks, with the next pass.
fn make_lane<'a>(
    alloc: Global,
    tree: &'a Tree,
    maker: &mut Maker,
    number: u32,
    tasks: Tasks,
) -> Result<Lane<TreePort<'a>>, AllocError>
    requires same_tree { maker.old.tree ≡ tree.now }
    requires few { maker.old.made < 64 }
    ensures lane_number { IfOk result (λ l. l.number ≡ number) }
    ensures tasks { IfOk result (λ l. l.tasks ≡ tasks) }
    ensures fresh { IfOk result IsNew }
    ensures tree { IfOk result (λ l. l.port.pass.tree ≡ tree.now) }
    ensures number { IfOk result (λ l. l.port.pass.number ≡ maker.old.made) }
    ensures same_tree { maker.new.tree ≡ maker.old.tree }
    ensures made { IfOk result (λ l. maker.new.made ≡ maker.old.made + 1) }
    ensures taken { maker.new.taken ≡ maker.old.taken }
{
    let answers = Answers::with_room(alloc, tasks.as_slice().len())?;
    let port = TreePort::new(tree, tree.pass(maker));
    Ok(Lane::new(number, tasks, answers, port))
}

// Gathers what the lanes answered and left, and the refusal of the lowest lane that stopped.
pub(crate) fn gather_all(alloc: Global, lanes: &[Lane<TreePort<'_>>]) -> Result<Came, AllocError>
    requires answers { All (λ l. AnswerInOrder l.tasks l.answers.list) lanes.now }
    requires own_lines { HaveOwnLines (map (λ l. l.tasks) lanes.now) }
    ensures answers { IfOk result (λ c.
        InLineOrder (map (λ l. l.answers.list) lanes.now) c.answers.items) }
    ensures left { IfOk result (λ c. TasksInLineOrder
        (map (λ l. unanswered l.tasks l.answers.list) lanes.now) c.left.items) }
    ensures full { IfOk result (λ c.
        c.full ≡ first_refusal (map (λ l. l.stopped) lanes.now)) }
{
    let answers = gather(alloc, lanes)?;
    let left = open_tasks(alloc, lanes)?;
    Ok(Came {
        answers,
        left: left.into_vec(),
        full: first_refusal(lanes),
    })
}

// A lane holds its pass in its port, which knows why it was refused.
pub(crate) struct OfLane;

impl<'a> Holds<Lane<TreePort<'a>>> for OfLane {
    ghost use Rattle.std.specs.Prelude.{IfSome};
    ghost use Rattle.ist_tree.specs.Refusals.{PassWasRefused};

    ghost pass = { λ l. l.port.pass };

    ghost known = { λ l. IfSome l.port.refused (PassWasRefused l.port.pass) };

    fn into_pass(holder: Lane<TreePort<'a>>) -> Pass {
        let Lane { port, .. } = holder;
        port.know();
        port.into_pass()
    }
}
