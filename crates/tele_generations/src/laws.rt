//! Laws over the definitions. The functions take no steps and return nothing: their contracts are
//! the laws.
ghost use Rattle.tele_generations.specs.Alone.{ListsAnswerAlone, KeysAreLeftAlone};
ghost use Rattle.tele_generations.specs.Runs.{DoneIsPlain, WholeIsPlain, WholeLeavesNothing};
ghost use Rattle.tele_generations.specs.Runs.{DoneLeavesTheMap, WordsRestWith};
ghost use Rattle.tele_generations.specs.Turns.{RoundBegins, RoundGoesOn, LanesTakeATurn};
ghost use Rattle.tele_generations.specs.Turns.{OneLineTakesATurn, TasksAreCounted, RoundEnds};
ghost use Rattle.tele_generations.specs.Turns.{PairsAreTheMap};
ghost use Rattle.tele_generations.specs.Suffixes.{AllAreSuffixes, SuffixesGoOn};
ghost use Rattle.tele_generations.specs.Suffixes.{LanesLeaveSuffixes, OneLineLeavesSuffixes};

/// Lists of calls that belong to one log at rest, each with only keys of its lane: each has the
/// replies of one thread that runs it from the map at the start, without the others. At the end
/// each key has the value that its list leaves.
pub fn lists_answer_alone()
    ensures replies { ListsAnswerAlone }
    ensures values { KeysAreLeftAlone }
{}

/// Lanes that each answered a first part of their tasks on one table: their answers, merged in line
/// order, are one thread's answers to these parts in line order, and the map after the changes of
/// the table is the one that it leaves. Lanes that answered all leave nothing, and their answers
/// are one thread's. Words that stand for the lanes' calls have such a log.
pub fn lanes_answer_their_parts()
    ensures done { DoneIsPlain }
    ensures leaves { DoneLeavesTheMap }
    ensures whole { WholeIsPlain }
    ensures nothing_left { WholeLeavesNothing }
    ensures words { WordsRestWith }
{}

/// A round in turns, for a loop that keeps `IsUnderWay`. It holds before the first turn. Each turn
/// of lanes on a table keeps it, and so does each line that one thread answers. If nothing is left,
/// the answers are one thread's answers to all tasks.
pub fn turns_answer_all()
    ensures begins { RoundBegins }
    ensures goes_on { RoundGoesOn }
    ensures lanes { LanesTakeATurn }
    ensures one_line { OneLineTakesATurn }
    ensures counted { TasksAreCounted }
    ensures ends { RoundEnds }
    ensures pairs { PairsAreTheMap }
{}

/// What the turns leave of each lane are the last of its tasks.
pub fn turns_leave_suffixes()
    ensures begins { AllAreSuffixes }
    ensures goes_on { SuffixesGoOn }
    ensures lanes { LanesLeaveSuffixes }
    ensures one_line { OneLineLeavesSuffixes }
{}
