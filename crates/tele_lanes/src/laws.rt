//! Laws over the definitions. The functions take no steps and return nothing: their contracts are
//! the laws.
ghost use Rattle.std.specs.Prelude.{◌≡◌, ◌<◌, ◌%◌, ◌↔◌, ℕ, List, All, AllPairs};
ghost use Rattle.std.specs.List.Sorted.{IsStrictlyIncreasing};
ghost use Rattle.std.specs.FinMap as fin;
ghost use Rattle.ist_core.specs.declared.commands.Command.{Command};
ghost use Rattle.ist_core.specs.Map.{Map, replay};
ghost use Rattle.tele_lanes.specs.declared.task_lists.Task.{Task};
ghost use Rattle.tele_lanes.specs.declared.answer_lists.Answer.{Answer};
ghost use Rattle.tele_lanes.specs.Lines.{task_lines, ShareNoLine};
ghost use Rattle.tele_lanes.specs.Lanes.{lane_commands, all_lane_tasks, HaveOwnLines};
ghost use Rattle.tele_lanes.specs.Lanes.{ArePlainAnswers, AnswerAlone, InLineOrder};

/// Lanes that answer alone, each from the same map, answer together as one thread does: their
/// answers, merged in line order, are exactly the answers to all tasks in order. At the end each
/// key has the value that its lane leaves.
pub fn lanes_answer_as_one()
    ensures answers { (m : Map) (workers : ℕ) (tasks : List Task) → 0 < workers
        → IsStrictlyIncreasing (task_lines tasks)
        → (lanes : List (List Answer)) (all : List Answer) → AnswerAlone m workers tasks lanes
        → (InLineOrder lanes all ↔ ArePlainAnswers m tasks all) }
    ensures values { (m : Map) (workers : ℕ) (commands : List Command) (key : ℕ)
        → fin.get (replay m commands) key
        ≡ fin.get (replay m (lane_commands workers (key % workers) commands)) key }
{}

/// Lanes that were split from tasks with strictly increasing lines can be gathered: no two of their
/// tasks have the same line, no two lanes share a line, and the lines of each are strictly
/// increasing.
pub fn lanes_can_be_gathered()
    ensures own_lines { (workers : ℕ) (tasks : List Task) → IsStrictlyIncreasing (task_lines tasks)
        → HaveOwnLines (all_lane_tasks workers tasks) }
    ensures rising { (workers : ℕ) (tasks : List Task) → IsStrictlyIncreasing (task_lines tasks)
        → All (λ lane. IsStrictlyIncreasing (task_lines lane)) (all_lane_tasks workers tasks) }
    ensures apart { (workers : ℕ) (tasks : List Task) → IsStrictlyIncreasing (task_lines tasks)
        → AllPairs ShareNoLine (all_lane_tasks workers tasks) }
{}
