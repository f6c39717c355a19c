//! What the laws mean on a small log. The functions take no steps: contracts are facts.
ghost use Rattle.std.specs.Prelude.{[], ◌∷◌};
ghost use Rattle.ist_core.specs.Map.{map_of};
ghost use Rattle.ist_core.specs.ExampleLogs.{put_resolved};
ghost use Rattle.laws_histories.specs.Telling.{map_now};
ghost use Rattle.tele_generations.specs.Runs.{RanOn};
ghost use Rattle.tele_generations.specs.Turns.{IsUnderWay};
ghost use Rattle.tele_generations.specs.ExampleTurns.{line_one, line_two, answer_one, one_run};

/// A turn of one lane on an empty table of 15 words answers the put of line 1 and leaves line 2.
pub fn a_turn_leaves_a_line()
    ensures ran { RanOn [] 15 put_resolved 1 (line_one ∷ line_two ∷ []) (one_run ∷ []) }
    ensures way { IsUnderWay (map_of []) (line_one ∷ line_two ∷ []) (answer_one ∷ [])
        (line_two ∷ []) (map_now [] 15 put_resolved) }
{}
