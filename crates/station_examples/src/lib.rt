//! Worked examples of what a post does, computed from the definitions of a station: each clause is one. Where the definitions that they
//! speak of change, the example that shows it is refused.
//!
//! Proved: worked examples of a post, each a clause that the definitions compute: two whole sessions, set-up, closing, charging, ends,
//! deadlines, pause and renegotiation; docs/WRONG_RULES.md lists which change of a rule each of them refuses.
#![tactic(auto)]

ghost use Rattle.station_examples.specs.Whole as whole;
ghost use Rattle.station_examples.specs.Setup as setup;
ghost use Rattle.station_examples.specs.Closing as closing;
ghost use Rattle.station_examples.specs.Charging as charging;
ghost use Rattle.station_examples.specs.Ending as ending;
ghost use Rattle.station_examples.specs.Timing as timing;
ghost use Rattle.station_examples.specs.Pausing as pausing;

/// Whole sessions, as a car makes them (ISO 15118-2:2014, section 8.8.4).
pub fn sessions_go_through()
    ensures direct_current { whole.DirectCurrent }
    ensures alternating_current { whole.AlternatingCurrent }
{}

/// How a session is negotiated, set up and authorized (ISO 15118-2:2014, sections 8.2 to 8.4.3).
pub fn sessions_are_set_up()
    ensures pieces_wait { setup.PiecesWait }
    ensures pieces_give_one_reply { setup.PiecesGiveOneReply }
    ensures ends_without_match { setup.EndsWithoutMatch }
    ensures ends_by_bad_frame { setup.EndsByBadFrame }
    ensures ends_by_refusal { setup.EndsByRefusal }
    ensures ends_by_reply { setup.EndsByReply }
    ensures early_authorization_fails { setup.EarlyAuthorizationFails }
    ensures name_is_judged_first { setup.NameIsJudgedFirst }
    ensures stop_ends { setup.StopEnds }
    ensures stop_of_another_fails { setup.StopOfAnotherFails }
    ensures waits_for_payment { setup.WaitsForPayment }
    ensures payment_finishes { setup.PaymentFinishes }
    ensures payment_is_used_up { setup.PaymentIsUsedUp }
    ensures without_watts_waits { setup.WithoutWattsWaits }
    ensures mode_is_judged_first { setup.ModeIsJudgedFirst }
{}

/// When a contactor is ordered closed, and what follows (ISO 15118-2:2014, section 8.4.5).
pub fn contactors_close()
    ensures start_before_check_fails { closing.StartBeforeCheckFails }
    ensures closes_near { closing.ClosesNear }
    ensures closes_near_above { closing.ClosesNearAbove }
    ensures stays_open_far { closing.StaysOpenFar }
    ensures stays_open_just_far { closing.StaysOpenJustFar }
    ensures stays_open_far_above { closing.StaysOpenFarAbove }
    ensures stays_open_while_opening { closing.StaysOpenWhileOpening }
    ensures stays_open_without_car { closing.StaysOpenWithoutCar }
    ensures confirmed_is_answered { closing.ConfirmedIsAnswered }
    ensures unconfirmed_ends { closing.UnconfirmedEnds }
    ensures frame_behind_start_ends { closing.FrameBehindStartEnds }
    ensures ac_closes { closing.AcCloses }
    ensures ac_confirmed_is_answered { closing.AcConfirmedIsAnswered }
    ensures failed_close_ends { closing.FailedCloseEnds }
    ensures check_waits { closing.CheckWaits }
    ensures check_fails { closing.CheckFails }
{}

/// What a session does while it charges (ISO 15118-2:2014, section 8.4.5).
pub fn sessions_charge()
    ensures status_limits { charging.StatusLimits }
    ensures measured_at_bound { charging.MeasuredAtBound }
    ensures measured_above_ends { charging.MeasuredAboveEnds }
    ensures lowered_stays { charging.LoweredStays }
    ensures lowered_ends { charging.LoweredEnds }
    ensures opens_before_failed { charging.OpensBeforeFailed }
    ensures failed_open_drops_reply { charging.FailedOpenDropsReply }
    ensures stop_opens { charging.StopOpens }
    ensures pre_charge_limits { charging.PreChargeLimits }
    ensures failed_send_ends { charging.FailedSendEnds }
    ensures demand_is_cut { charging.DemandIsCut }
    ensures renewal_is_told { charging.RenewalIsTold }
    ensures stop_is_told_first { charging.StopIsToldFirst }
    ensures wrong_unit_opens { charging.WrongUnitOpens }
{}

/// What ends a session, and what is done before its end (ISO 15118-2:2014, section 8.8; IEC 61851-1, annex A).
pub fn sessions_end()
    ensures emergency_opens { ending.EmergencyOpens }
    ensures nothing_behind_end { ending.NothingBehindEnd }
    ensures failed_open_ends_once { ending.FailedOpenEndsOnce }
    ensures failed_open_is_repeated { ending.FailedOpenIsRepeated }
    ensures failed_open_is_repeated_again { ending.FailedOpenIsRepeatedAgain }
    ensures taken_open_is_done { ending.TakenOpenIsDone }
    ensures invalid_ends_checked { ending.InvalidEndsChecked }
    ensures warning_opens_charging { ending.WarningOpensCharging }
    ensures invalid_before_check_waits { ending.InvalidBeforeCheckWaits }
    ensures pilot_b_opens { ending.PilotBOpens }
    ensures pilot_b_waits { ending.PilotBWaits }
    ensures pilot_a_ends { ending.PilotAEnds }
    ensures arrives_behind_open { ending.ArrivesBehindOpen }
    ensures pilot_b_behind_open_waits { ending.PilotBBehindOpenWaits }
    ensures pilot_b_while_owed { ending.PilotBWhileOwed }
    ensures pilot_b_behind_open { ending.PilotBBehindOpen }
    ensures pilot_b_while_closed { ending.PilotBWhileClosed }
    ensures opened_against_order_ends { ending.OpenedAgainstOrderEnds }
    ensures open_while_closing_waits { ending.OpenWhileClosingWaits }
    ensures closed_against_order_ends { ending.ClosedAgainstOrderEnds }
    ensures stop_ends { ending.StopEnds }
    ensures stop_of_another_fails { ending.StopOfAnotherFails }
    ensures gone_opens { ending.GoneOpens }
    ensures came_opens { ending.CameOpens }
    ensures over_opens { ending.OverOpens }
{}

/// When a deadline is reached (ISO 15118-2:2014, section 8.7).
pub fn deadlines_run()
    ensures waits_before_deadline { timing.WaitsBeforeDeadline }
    ensures ends_at_deadline { timing.EndsAtDeadline }
    ensures deadline_goes_first { timing.DeadlineGoesFirst }
    ensures deadline_goes_before_event { timing.DeadlineGoesBeforeEvent }
    ensures reply_begins_anew { timing.ReplyBeginsAnew }
    ensures clock_stands_still { timing.ClockStandsStill }
    ensures waits_for_setup { timing.WaitsForSetup }
    ensures ends_without_setup { timing.EndsWithoutSetup }
    ensures negotiation_delays_nothing { timing.NegotiationDelaysNothing }
    ensures never_is_due { timing.NeverIsDue }
    ensures last_moment_is_never { timing.LastMomentIsNever }
    ensures last_but_one_is_due { timing.LastButOneIsDue }
    ensures other_post_is_clock { timing.OtherPostIsClock }
    ensures other_post_changes_no_reply { timing.OtherPostChangesNoReply }
{}

/// How a session pauses, is joined again and goes back to its parameters (ISO 15118-2:2014, sections 8.4.2 and 8.4.5).
pub fn sessions_pause()
    ensures pause_ends { pausing.PauseEnds }
    ensures pause_keeps { pausing.PauseKeeps }
    ensures stop_keeps_nothing { pausing.StopKeepsNothing }
    ensures early_pause_fails { pausing.EarlyPauseFails }
    ensures joins_paused { pausing.JoinsPaused }
    ensures joins_once { pausing.JoinsOnce }
    ensures joined_is_authorized { pausing.JoinedIsAuthorized }
    ensures came_clears { pausing.CameClears }
    ensures renegotiation_opens { pausing.RenegotiationOpens }
    ensures start_behind_renegotiation_fails { pausing.StartBehindRenegotiationFails }
    ensures parameters_behind_renegotiation { pausing.ParametersBehindRenegotiation }
{}
