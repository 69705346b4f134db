//! Worked examples of whole pasts, by the definition of a site's runs: what follows behind one at two posts, and a run whose session
//! charges and conforms, and one that conforms behind a session that didn't.
//!
//! Proved: worked examples of runs, computed: one post's deadline before another post's reply, a session that charges and conforms, and one
//! that conforms behind another whose car left.
#![tactic(auto)]

ghost use Rattle.post_spec.specs.Codecs.{codecs};
ghost use Rattle.site_examples.specs.LaterSession.{LaterConforms};
ghost use Rattle.site_examples.specs.OneCharge.{SessionConforms};
ghost use Rattle.site_examples.specs.TwoPosts.{DeadlineGoesFirst};

use post_spec::Coded;

/// In one hearing the deadline of post 1 ends its session before post 2 answers (ISO 15118-2:2014, section 8.7).
pub fn deadline_goes_before_reply<C: Coded>()
    ensures { DeadlineGoesFirst (codecs C.negotiates C.reads C.encodes) }
{}

/// A session in alternating current, from its connection over charging to SessionStop, is one that conforms, in a run of a site
/// (ISO 15118-2:2014, section 8.8.4).
pub fn charging_sessions_conform<C: Coded>()
    ensures { SessionConforms (codecs C.negotiates C.reads C.encodes) }
{}

/// A session conforms by what came in it alone: one before it, whose car left, doesn't take that from it, nor does an answer to a datagram that
/// failed (ISO 15118-2:2014, section 8.8).
pub fn later_sessions_conform()
    ensures { LaterConforms }
{}
