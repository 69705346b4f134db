//! Worked examples of the pipe between a station and a car, computed from its definitions: each clause is one.
//!
//! Proved: 34 worked examples: whole sessions, numbers that are drawn, what a short history tells, and which plans match.
#![tactic(auto)]

ghost use Rattle.pipe_examples.specs.Draws as draws;
ghost use Rattle.pipe_examples.specs.Matching as matching;
ghost use Rattle.pipe_examples.specs.Readings as readings;
ghost use Rattle.pipe_examples.specs.Whole as whole;

/// Numbers that are drawn.
pub fn numbers_are_drawn()
    ensures first_of_none { draws.FirstOfNone }
    ensures second_of_none { draws.SecondOfNone }
    ensures third_of_seven { draws.ThirdOfSeven }
    ensures fourth_of_the_last { draws.FourthOfTheLast }
    ensures behind_four { draws.BehindFour }
{}

/// What a short history tells.
pub fn histories_are_read()
    ensures keeps_the_rest { readings.KeepsTheRest }
    ensures answers_all { readings.AnswersAll }
    ensures passes_time { readings.PassesTime }
    ensures draws_for_pieces { readings.DrawsForPieces }
    ensures hears_at_both_ends { readings.HearsAtBothEnds }
    ensures car_hears_less { readings.CarHearsLess }
    ensures car_is_deaf { readings.CarIsDeaf }
    ensures is_over_by_one { readings.IsOverByOne }
    ensures goes_on_under_way { readings.GoesOnUnderWay }
    ensures is_over_by_turns { readings.IsOverByTurns }
    ensures counts_exchanges { readings.CountsExchanges }
    ensures counts_no_other { readings.CountsNoOther }
    ensures counts_all { readings.CountsAll }
    ensures begins_anew { readings.BeginsAnew }
    ensures drops_the_rest { readings.DropsTheRest }
{}

/// Whole sessions over the pipe.
pub fn sessions_end()
    ensures too_low { whole.TooLow }
    ensures no_dialect { whole.NoDialect }
{}

/// Whole sessions that charge: with two charging replies, in direct current and in alternating current.
pub fn sessions_charge()
    ensures direct_current { whole.DirectCurrent }
    ensures alternating_current { whole.AlternatingCurrent }
{}

/// The session of the car and the station without a file, in ISO and in DIN alone.
pub fn usual_sessions_end()
    ensures usual { whole.Usual }
    ensures usual_in_din { whole.UsualInDin }
    ensures usual_ends_well { whole.UsualEndsWell }
{}

/// Plans that match, and plans that don't.
pub fn plans_match()
    ensures usual_matches { matching.UsualMatches }
    ensures alternating_matches { matching.AlternatingMatches }
    ensures slow_matches { matching.SlowMatches }
    ensures too_low_does_not { matching.TooLowDoesNot }
    ensures other_mode_does_not { matching.OtherModeDoesNot }
    ensures too_slow_does_not { matching.TooSlowDoesNot }
    ensures pause_does_not { matching.PauseDoesNot }
{}
