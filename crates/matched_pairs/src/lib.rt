//! The first session of the pipe between a station and a car whose plans match: it goes through the exchanges of such plans, no end has a cause of its own but
//! SessionStop, and it ends within its bound, with both contactors ordered open last.
//!
//! Everything here is said of any codecs that agree and read back what they encode. The modules stand on each other in this order: `acting` (the phases of a
//! session, and how the acts of both ends lead from one to the next), `hearing` (what a hearing of each end does in them), `going` (the session as far as no end
//! has a cause of its own: its words, its contactor, its end), `timing` (that none has one: power and deadlines) and `ending` (the whole run).
//!
//! Proved: for any codecs that agree and read back what they encode, `cars_read`, `posts_go_on` and `cars_go_on` (what each end does keeps a session in its
//! phases or leads to the next exchange); `sessions_go_well` (the words of a first session are exchanges, each of the OK class), `causes_are_stops` (SessionStop
//! is the cause of both ends), `contactors_follow` and `contactors_are_opened` (the post's contactor does as it is ordered, and where the session is over both
//! were ordered open last), as far as no end has a cause of its own; `timely_sessions_are_undisturbed` (none has one where no deadline is reached) and
//! `deadlines_are_kept` (none is, as far as no step of the car takes too long); `quick_steps_are_kept` and `quick_steps_are_few` (authorization, the parameters
//! and the cable check take little time and are asked again three times at most); `voltages_are_told` (how the voltage rises while the car pre-charges);
//! `pre_charges_are_kept` and `pre_charges_are_few` (the pre-charge is done within its deadline, and asked again 30 times at most); `exchanges_are_counted`,
//! `hearings_are_few` and `pipe_runs_are_well` (the run of the pipe of plans that go together ends within 64 exchanges and four times the charging replies, each
//! of the OK class, by SessionStop at both ends, with both contactors ordered open last).
#![tactic(auto)]

mod acting;
mod ending;
mod going;
mod hearing;
mod timing;

pub use acting::{cars_act, cars_go_on, cars_read, posts_act, posts_do, posts_go_on, posts_keep};
pub use ending::{hearings_are_few, pipe_runs_are_well};
pub use going::{
    causes_are_stops, contactors_are_opened, contactors_follow, sessions_end_by_stop,
    sessions_go_well, sessions_stop,
};
pub use hearing::{cars_hear, posts_hear};
pub use timing::{
    clocks_are_right, closes_are_heard, deadlines_are_kept, exchanges_are_counted,
    moments_are_bounded, powers_are_within, pre_charges_are_few, pre_charges_are_kept,
    quick_steps_are_few, quick_steps_are_kept, repeats_are_of_now, sessions_are_undisturbed,
    sessions_keep_pace, steady_sessions_end, time_passes_in_pauses,
    timely_sessions_are_undisturbed, timely_sessions_end, voltages_are_told, voltages_rise,
    words_are_told,
};
