//! Worked examples of what a car does, computed from its definitions: each clause is one. Where the definitions that they speak of change,
//! the example that shows it is refused.
//!
//! Proved: 88 worked examples that compute.
#![tactic(auto)]

ghost use Rattle.car_examples.specs.Whole as whole;
ghost use Rattle.car_examples.specs.Setup as setup;
ghost use Rattle.car_examples.specs.Replies as replies;
ghost use Rattle.car_examples.specs.Charging as charging;
ghost use Rattle.car_examples.specs.Timing as timing;
ghost use Rattle.car_examples.specs.Searching as searching;
ghost use Rattle.car_examples.specs.Ending as ending;
ghost use Rattle.car_examples.specs.ByBytes as bytes;

/// Whole sessions of a car (ISO 15118-2:2014, section 8.8.4).
pub fn sessions_go_through()
    ensures direct_current { whole.DirectCurrent }
    ensures alternating_current { whole.AlternatingCurrent }
{}

/// How a car begins its session and names it (ISO 15118-2:2014, sections 8.2 and 8.3.3).
pub fn sessions_begin()
    ensures names_none { setup.NamesNone }
    ensures names_the_paused { setup.NamesThePaused }
    ensures takes_the_given { setup.TakesTheGiven }
    ensures ends_unmatched { setup.EndsUnmatched }
    ensures din_names_no_schedule { setup.DinNamesNoSchedule }
    ensures iso_names_the_first { setup.IsoNamesTheFirst }
    ensures iso_pauses { setup.IsoPauses }
    ensures din_ends { setup.DinEnds }
    ensures unconnected_waits { setup.UnconnectedWaits }
    ensures unconnected_ends_by_over { setup.UnconnectedEndsByOver }
{}

/// Replies that end a session (ISO 15118-2:2014, sections 8.3.3 and 8.8.3).
pub fn replies_are_judged()
    ensures other_kind_ends { replies.OtherKindEnds }
    ensures other_session_ends { replies.OtherSessionEnds }
    ensures unasked_ends { replies.UnaskedEnds }
    ensures second_ends { replies.SecondEnds }
    ensures failed_ends { replies.FailedEnds }
    ensures wrong_goes_first { replies.WrongGoesFirst }
    ensures other_mode_ends { replies.OtherModeEnds }
    ensures refused_ends { replies.RefusedEnds }
    ensures request_ends { replies.RequestEnds }
    ensures bad_frame_ends { replies.BadFrameEnds }
{}

/// When a car closes and opens its contactor, and its pace (ISO 15118-2:2014, section 8.4.5; IEC 61851-23).
pub fn contactors_close_and_open()
    ensures closes_near { charging.ClosesNear }
    ensures closes_near_above { charging.ClosesNearAbove }
    ensures waits_far { charging.WaitsFar }
    ensures waits_far_above { charging.WaitsFarAbove }
    ensures closes_in_wrong_unit { charging.ClosesInWrongUnit }
    ensures ac_closes { charging.AcCloses }
    ensures failed_close_ends { charging.FailedCloseEnds }
    ensures failed_open_ends { charging.FailedOpenEnds }
    ensures waits_for_its_pace { charging.WaitsForItsPace }
    ensures asks_at_its_pace { charging.AsksAtItsPace }
    ensures asks_at_the_last_moment { charging.AsksAtTheLastMoment }
    ensures asks_never_past_it { charging.AsksNeverPastIt }
    ensures asks_behind_the_event { charging.AsksBehindTheEvent }
    ensures charges_on { charging.ChargesOn }
    ensures stops_at_the_last { charging.StopsAtTheLast }
    ensures stops_for_the_post { charging.StopsForThePost }
    ensures stops_for_the_driver { charging.StopsForTheDriver }
    ensures renegotiates { charging.Renegotiates }
{}

/// Which bytes mandate a car to close its contactor (ISO 15118-2:2014, section 8.8.4; IEC 61851-23).
pub fn closes_are_mandated()
    ensures near { bytes.MandatedNear }
    ensures far { bytes.UnmandatedFar }
    ensures unheard { bytes.UnmandatedUnheard }
{}

/// A car's deadlines (ISO 15118-2:2014, section 8.7).
pub fn deadlines_run()
    ensures awaits_reply { timing.AwaitsReply }
    ensures ends_without_reply { timing.EndsWithoutReply }
    ensures awaits_delivery { timing.AwaitsDelivery }
    ensures ends_without_delivery { timing.EndsWithoutDelivery }
    ensures awaits_demand { timing.AwaitsDemand }
    ensures ends_without_demand { timing.EndsWithoutDemand }
    ensures awaits_charging_status { timing.AwaitsChargingStatus }
    ensures deadline_goes_first { timing.DeadlineGoesFirst }
    ensures deadline_goes_before_event { timing.DeadlineGoesBeforeEvent }
    ensures ends_unfinished { timing.EndsUnfinished }
    ensures awaits_finished { timing.AwaitsFinished }
    ensures ends_unchecked { timing.EndsUnchecked }
    ensures awaits_checked { timing.AwaitsChecked }
    ensures ends_uncharged { timing.EndsUncharged }
    ensures awaits_charged { timing.AwaitsCharged }
    ensures renews_its_span { timing.RenewsItsSpan }
    ensures least_number_decides { timing.LeastNumberDecides }
    ensures other_before_it { timing.OtherBeforeIt }
    ensures last_moment_is_reached { timing.LastMomentIsReached }
    ensures past_it_is_never { timing.PastItIsNever }
{}

/// How a car looks for its post (ISO 15118-2:2014, section 7.10.1).
pub fn posts_are_searched()
    ensures asks_at_once { searching.AsksAtOnce }
    ensures waits_for_answer { searching.WaitsForAnswer }
    ensures asks_again { searching.AsksAgain }
    ensures asks_nothing { searching.AsksNothing }
    ensures dials_the_answer { searching.DialsTheAnswer }
    ensures ignores_tls { searching.IgnoresTls }
    ensures ignores_the_second { searching.IgnoresTheSecond }
    ensures failed_dial_ends { searching.FailedDialEnds }
    ensures asks_fifty_times { searching.AsksFiftyTimes }
    ensures waits_behind_them { searching.WaitsBehindThem }
    ensures gives_up { searching.GivesUp }
    ensures gives_up_first { searching.GivesUpFirst }
    ensures waits_for_nothing { searching.WaitsForNothing }
    ensures waits_for_its_turn { searching.WaitsForItsTurn }
    ensures waits_for_ever { searching.WaitsForEver }
{}

/// What ends a car from outside.
pub fn cars_end()
    ensures emergency_opens { ending.EmergencyOpens }
    ensures pilot_ends_nothing { ending.PilotEndsNothing }
    ensures gone_opens { ending.GoneOpens }
    ensures second_connection_ends { ending.SecondConnectionEnds }
    ensures over_opens { ending.OverOpens }
    ensures failed_send_ends { ending.FailedSendEnds }
    ensures failed_open_ends { ending.FailedOpenEnds }
    ensures ended_is_silent { ending.EndedIsSilent }
    ensures stop_ends { ending.StopEnds }
    ensures pause_ends { ending.PauseEnds }
{}
