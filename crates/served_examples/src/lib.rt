//! Pasts that are not served, each of which breaks a sentence of what `served_sessions` promises. A rule by which a post did so in a
//! conforming session is refused by the law that each of its runs is served.
//!
//! Proved: of nine pasts, that each is no such service, of one, that a contactor may not be closed by it, and of one, that it
//! sends what may not be sent while the contactor is live.
#![tactic(auto)]

ghost use Rattle.post_spec.specs.Codecs.{codecs};
ghost use Rattle.served_examples.specs.LiveResponse.{LiveResponse};
ghost use Rattle.served_examples.specs.OldClose.{OldClose};
ghost use Rattle.served_examples.specs.WrongPasts as wrong;

use post_spec::Coded;

/// What a post may not do in a conforming session, whatever its codecs are.
pub fn wrong_pasts_are_refused<C: Coded>()
    ensures failed_reply { wrong.FailedReply (codecs C.negotiates C.reads C.encodes) }
    ensures no_reply { wrong.NoReply (codecs C.negotiates C.reads C.encodes) }
    ensures two_replies { wrong.TwoReplies (codecs C.negotiates C.reads C.encodes) }
    ensures late_close { wrong.LateClose (codecs C.negotiates C.reads C.encodes) }
    ensures close_for_another { wrong.CloseForAnother (codecs C.negotiates C.reads C.encodes) }
    ensures never_closes { wrong.NeverCloses (codecs C.negotiates C.reads C.encodes) }
    ensures early_reply { wrong.EarlyReply (codecs C.negotiates C.reads C.encodes) }
    ensures late_reply { wrong.LateReply (codecs C.negotiates C.reads C.encodes) }
    ensures early_end { wrong.EarlyEnd (codecs C.negotiates C.reads C.encodes) }
{}

/// A Close of an earlier session gives no right to close: PowerDelivery Start that was answered without one mandates nothing (ISO 15118-2:2014,
/// 8.8.4; IEC 61851-23).
pub fn old_close_gives_no_right<C: Coded>()
    ensures { OldClose (codecs C.negotiates C.reads C.encodes) }
{}

/// No response to a negotiation is sent while a contactor is live that an earlier session left so (ISO 15118-2:2014, section 8.2; IEC 61851-23).
pub fn no_response_while_live<C: Coded>()
    ensures { LiveResponse (codecs C.negotiates C.reads C.encodes) }
{}
