//! What a post makes of a word.

ghost use Rattle.std.specs.Prelude.{◌≡◌, ℕ, List, Some, []};
ghost use Rattle.session_words.specs.Plans.{IsPostPlan};
ghost use Rattle.post_spec.specs.Codecs.{Asked};
ghost use Rattle.station_spec.specs.Judging as judging;
ghost use Rattle.station_spec.specs.Sharing.{Post as SitePost, Shows};
ghost use Rattle.valid_isolation.specs.Isolated.{IsIsolated};
ghost use Rattle.secc_machine.specs.Views.{judged_of, asks_in, rejected, with_unread, IsShownFor, ComesFirst};

use crate::agenda::Agenda;
use crate::event::Judged;
use crate::post::{Part, Post};
use crate::ruling::{asked_if, shows_if};
use crate::slot::Living;
use charge_world::Dialect;
use session_rules::{is_accepted, judge};
use session_words::{EndCause, PostPlan, Request};

/// What a negotiation becomes behind its response: a cause, where nothing was chosen.
fn unmatched(chosen: Option<Dialect>) -> Option<EndCause>
    ensures { result ≡ judging.unmatched chosen }
{
    match chosen {
        Some(_) => None,
        None => Some(EndCause::NoNegotiation),
    }
}

impl Post {
    /// A request of the session, where one lives.
    fn ask(&mut self, plan: &PostPlan, request: &Request, shown: u32)
        requires plan { IsPostPlan plan.now }
        requires isolation { IsIsolated self.old.session self.old.facts.isolation }
        ensures { self.new
            ≡ judging.taken_in plan.now self.old self.old.session (record { judged = Asked request.now; shown = shown }) }
    {
        let answer = self.slot.answer(&mut self.facts, self.clock, self.live, plan, request, shown);
        match answer {
            Some(agenda) => {
                self.agenda = agenda;
                self.part = Part::Wording;
            }
            None => {}
        }
    }

    /// The watts for which the post asks behind a request, where that is shown watts.
    fn asks_by(&self, plan: &PostPlan, living: &Living, request: &Request) -> Option<u32>
        ensures { result ≡ asks_in plan.now self.now (Some (with_unread [] living.now)) (Asked request.now) }
    {
        let accepted = is_accepted(judge(&living.row.stage(), &self.facts, plan, request));
        if shows_if(accepted, &request.ask) {
            Some(asked_if(accepted, plan, &request.ask, living.asked))
        } else {
            None
        }
    }

    /// The watts for which the post asks behind a word, where that is shown watts.
    fn asks_of(&self, plan: &PostPlan, judged: &Judged) -> Option<u32>
        ensures { result ≡ asks_in plan.now self.now self.now.session (judged_of judged.now) }
    {
        match (judged, self.slot.living()) {
            (Judged::Asked(request), Some(living)) => self.asks_by(plan, living, request),
            _ => None,
        }
    }

    /// The watts for which the post asks behind a word, where that word is shown watts: none exactly where it is shown
    /// none.
    pub fn asks_for(&self, plan: &PostPlan, judged: &Judged) -> Option<u32>
        ensures value { result ≡ asks_in plan.now self.now self.now.session (judged_of judged.now) }
        // So between other posts of its site what it is shown where it asks for that is what it may be shown.
        ensures shown { (limit : ℕ) (before behind : List SitePost) (shown : ℕ)
            → IsShownFor (Shows limit before behind) result shown
            → judging.IsShown (Shows limit before behind) plan.now self.now self.now.session (judged_of judged.now) shown }
    {
        self.asks_of(plan, judged)
    }

    /// The word that is wanted was judged so, and is shown these watts. The isolation has to be valid in the rows that need it, and a
    /// negotiation comes first.
    pub fn read(&mut self, plan: &PostPlan, judged: Judged, shown: u32)
        requires plan { IsPostPlan plan.now }
        requires isolation { IsIsolated self.old.session self.old.facts.isolation }
        requires first { ComesFirst self.old.session (judged_of judged) }
        ensures { self.new ≡ judging.read plan.now self.old (Some (record { judged = judged_of judged; shown = shown })) }
    {
        if !self.slot.lives() {
            return;
        }
        match judged {
            Judged::Asked(request) => self.ask(plan, &request, shown),
            Judged::Negotiated { chosen, response } => {
                self.slot.choose(chosen);
                self.agenda = Agenda::responding(response, unmatched(chosen));
                self.part = Part::Wording;
            }
            Judged::WrongSide => self.reject(EndCause::WrongSide),
            Judged::Refused => self.reject(EndCause::Refused),
        }
    }

    /// The session ends by a word that is no request.
    fn reject(&mut self, cause: EndCause)
        ensures { self.new ≡ rejected cause self.old }
    {
        self.slot.pass();
        self.agenda = Agenda::ending_by(cause, self.live);
        self.part = Part::Wording;
    }
}
