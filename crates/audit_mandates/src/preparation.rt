//! The words that lead to a closed contactor.

ghost use Rattle.std.specs.Prelude.{◌≡◌, true, false, [], Some};
ghost use Rattle.session_words.specs.declared.word.Reply.{Reply};
ghost use Rattle.session_words.specs.declared.word.Request.{Request};
ghost use Rattle.post_spec.specs.Kinds as kinds;
ghost use Rattle.post_spec.specs.Talk.{Negotiation, Answered};
ghost use Rattle.audit_mandates.specs.Preparing.{unprepared, prepared_by, is_prepared};

use charge_world::Dialect;
use session_words::{Ask, Processing, Progress, Reply, Request, Tell};

/// Which of the words that lead to a closed contactor a session answered. Each counts behind the one before.
#[derive(Clone, Copy)]
pub struct Preparation {
    /// The negotiation.
    pub negotiated: bool,
    /// SessionSetup.
    pub set_up: bool,
    /// ServiceDiscovery.
    pub discovered: bool,
    /// The payment selection.
    pub selected: bool,
    /// An authorization, with the answer Finished.
    pub authorized: bool,
    /// PowerDelivery Renegotiate, at any place. The words below are those behind the last of them.
    pub renegotiated: bool,
    /// The authorization came before the last renegotiation.
    pub authorized_before: bool,
    /// ChargeParameterDiscovery, with the answer Finished: behind the authorization, or behind the last renegotiation.
    pub parametrized: bool,
    /// CableCheck, with the answer Finished.
    pub checked: bool,
    /// PreCharge.
    pub pre_charged: bool,
}

/// Whether a step is done.
fn is_finished(processing: Processing) -> bool
    ensures { result ≡ kinds.is_finished processing }
{
    matches!(processing, Processing::Finished)
}

/// Whether a reply says Finished.
pub(crate) fn says_finished(tell: &Tell) -> bool
    ensures { result ≡ kinds.says_finished tell.now }
{
    match tell {
        Tell::Authorization { processing } => is_finished(*processing),
        Tell::ChargeParameters { processing, .. } => is_finished(*processing),
        Tell::CableCheck { processing, .. } => is_finished(*processing),
        _ => false,
    }
}

impl Preparation {
    /// Before any word.
    pub fn new() -> Preparation
        ensures { result ≡ unprepared }
    {
        Preparation {
            negotiated: false,
            set_up: false,
            discovered: false,
            selected: false,
            authorized: false,
            renegotiated: false,
            authorized_before: false,
            parametrized: false,
            checked: false,
            pre_charged: false,
        }
    }

    /// Behind a negotiation.
    pub fn negotiated(self, chosen: Option<Dialect>) -> Preparation
        ensures { result ≡ prepared_by (Negotiation chosen) self }
    {
        Preparation {
            negotiated: true,
            ..self
        }
    }

    /// Behind a renegotiation.
    fn renegotiated(self) -> Preparation
        ensures { result ≡ record self { renegotiated = true; authorized_before = self.authorized; parametrized = false; checked = false; pre_charged = false } }
    {
        Preparation {
            renegotiated: true,
            authorized_before: self.authorized,
            parametrized: false,
            checked: false,
            pre_charged: false,
            ..self
        }
    }

    /// Behind an answered request.
    pub fn answered(self, request: &Request, reply: &Reply) -> Preparation
        ensures { result ≡ prepared_by (Answered request.now reply.now []) self }
    {
        let finished = says_finished(&reply.tell);
        match &request.ask {
            Ask::SessionSetup { .. } => Preparation {
                set_up: self.negotiated || self.set_up,
                ..self
            },
            Ask::ServiceDiscovery => Preparation {
                discovered: self.set_up || self.discovered,
                ..self
            },
            Ask::PaymentSelection { .. } => Preparation {
                selected: self.discovered || self.selected,
                ..self
            },
            Ask::Authorization => Preparation {
                authorized: finished && self.selected || self.authorized,
                ..self
            },
            Ask::ChargeParameters { .. } => Preparation {
                parametrized: finished && (self.renegotiated || self.authorized)
                    || self.parametrized,
                ..self
            },
            Ask::CableCheck { .. } => Preparation {
                checked: finished && self.parametrized || self.checked,
                ..self
            },
            Ask::PreCharge { .. } => Preparation {
                pre_charged: self.checked || self.pre_charged,
                ..self
            },
            Ask::PowerDelivery { progress, .. } => match progress {
                Progress::Renegotiate => self.renegotiated(),
                Progress::Start | Progress::Stop => self,
            },
            _ => self,
        }
    }

    /// Whether all these words were answered, those of the post's kind of current.
    pub fn is_whole(&self, ac: bool) -> bool
        ensures { result ≡ is_prepared ac self.now }
    {
        (!self.renegotiated || self.authorized_before)
            && if ac {
                self.parametrized
            } else {
                self.pre_charged
            }
    }
}
