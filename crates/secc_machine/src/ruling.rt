//! What a request leads to, judged once.

ghost use Rattle.std.specs.Prelude.{◌≡◌, ◌&&◌, ℕ, List, true, if◌then◌else◌, unwrap_or};
ghost use Rattle.std.specs.Option.{option_map};
ghost use Rattle.v2gtp_frames.specs.Reading.{behind_front};
ghost use Rattle.session_words.specs.Plans.{IsPostPlan};
ghost use Rattle.session_rules.specs.Allowed.{lowered_by};
ghost use Rattle.session_rules.specs.Asks.{asks, shows_watts};
ghost use Rattle.session_rules.specs.Causes.{needs_isolation};
ghost use Rattle.session_rules.specs.Finishing.{is_valid};
ghost use Rattle.session_rules.specs.Moves.{facts_behind};
ghost use Rattle.station_spec.specs.States.{State, Said};
ghost use Rattle.station_spec.specs.Judging as judging;
ghost use Rattle.secc_machine.specs.Views.{spoken_of, with_unread};

use crate::agenda::{Agenda, Spoken};
use crate::slot::Living;
use charge_world::{Dialect, Order};
use secc_rows::Ruled;
use session_rules::{Lowered, asks, lowered_by, shows_watts};
use session_words::{Ask, EndCause, Facts, PostPlan, Reply, Request};
use station_spec::opening_if;

/// What a request of a session leads to.
#[derive(Drop)]
pub(crate) struct Ruling {
    pub(crate) living: Living,
    pub(crate) facts: Facts,
    pub(crate) agenda: Agenda,
}

/// The watts that a session asks for behind a request.
pub(crate) fn asked_if(accepted: bool, plan: &PostPlan, ask: &Ask, asked: u32) -> u32
    ensures { result ≡ (if accepted then unwrap_or (asks plan.now ask.now) asked else asked) }
{
    if accepted {
        asks(plan, ask).unwrap_or(asked)
    } else {
        asked
    }
}

/// The watts that stay allowed behind a request.
fn lowered_if(
    shows: bool,
    told: u32,
    lowered: Option<Lowered>,
    now: u64,
    shown: u32,
) -> Option<Lowered>
    ensures { result ≡ (if shows then lowered_by told lowered now shown else lowered) }
{
    if shows {
        lowered_by(told, lowered, now, shown)
    } else {
        lowered
    }
}

/// Whether a request makes its reply show watts.
pub(crate) fn shows_if(accepted: bool, ask: &Ask) -> bool
    ensures { result ≡ (accepted && shows_watts ask.now) }
{
    accepted && shows_watts(ask)
}

/// The order of a request: Open where it ends the session and the contactor is live.
fn order_by(cause: Option<EndCause>, live: bool, order: Option<Order>) -> Option<Order>
    ensures { result ≡ judging.order_by cause live order }
{
    match cause {
        Some(_) => opening_if(live),
        None => order,
    }
}

/// A reply in a dialect, if there is one.
fn said(dialect: Dialect, reply: Option<Reply>) -> Option<Spoken>
    ensures { option_map spoken_of result ≡ option_map (Said dialect) reply }
{
    match reply {
        Some(reply) => Some(Spoken::Said { dialect, reply }),
        None => None,
    }
}

/// What a request of the session leads to, where these watts are shown. The isolation has to be valid in the rows that need it.
pub(crate) fn ruled(
    living: Living,
    facts: Facts,
    now: u64,
    live: bool,
    plan: &PostPlan,
    request: &Request,
    shown: u32,
) -> Ruling
    requires plan { IsPostPlan plan.now }
    requires isolation { needs_isolation living.row.row ≡ true → is_valid facts.isolation ≡ true }
    ensures living { (unread : List ℕ) (s : State) → s.facts ≡ facts → s.clock ≡ now
        → with_unread (behind_front unread) result.living
        ≡ judging.asked_session (with_unread unread living) plan.now s request.now shown }
    ensures facts { result.facts ≡ facts_behind living.row facts plan.now request.now }
    ensures agenda { (unread : List ℕ) (s : State) → s.facts ≡ facts → s.live ≡ live
        → result.agenda ≡ judging.asked_agenda (with_unread unread living) plan.now s request.now shown }
{
    let Living {
        row,
        since,
        asked,
        lowered,
    } = living;
    let place = row.place();
    let Ruled {
        row,
        facts,
        accepted,
        order,
        reply,
        end,
    } = row.step(request, facts, plan, shown);
    let shows = shows_if(accepted, &request.ask);
    let agenda = Agenda::answering(order_by(end, live, order), said(place.dialect, reply), end);
    Ruling {
        living: Living {
            row,
            since,
            asked: asked_if(accepted, plan, &request.ask, asked),
            lowered: lowered_if(shows, place.told, lowered, now, shown),
        },
        facts,
        agenda,
    }
}
