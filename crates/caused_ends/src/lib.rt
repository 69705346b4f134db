//! Each session that ends has its cause, and each cause ends its session; and no contactor is ordered open without a reason.
//!
//! Proved: `sessions_end_by_causes`: each end of a session has the number of the first cause that applied in it (a call that failed, a
//! deadline, what was heard, the next word) and of no other, and where a cause applies that session ends by it before anything more is
//! heard; where a payload is judged one way. `opens_for_a_reason`: each order to open repeats one that failed, was asked for by the car, or
//! has such a cause; `opens_at_first_causes`: where such a cause applies while the contactor is live, the next thing that the post does is an
//! order to open, without an exception. Of five ends, that no session has them, and of one, that it is right.
#![tactic(auto)]

ghost use Rattle.post_spec.specs.Codecs.{codecs};
ghost use Rattle.caused_ends.specs.Ending.{RunsEndByCauses};
ghost use Rattle.caused_ends.specs.Opening.{RunsOpenFirst, RunsOpenForReasons};
ghost use Rattle.caused_ends.specs.WrongEnds as wrong;

use post_spec::Coded;

/// In every run, where a session ends, it ends by the first cause that applied in it, which came in that hearing; and where a cause
/// applies in a session, nothing more is heard before it has ended by that cause (ISO 15118-2:2014, 8.7 and 8.8).
pub fn sessions_end_by_causes<C: Coded>()
    ensures { RunsEndByCauses (codecs C.negotiates C.reads C.encodes) }
{}

/// In every run, an order to open repeats one that failed before that hearing, or the car asked to stop or to negotiate anew, or its session
/// has a cause (IEC 61851-1, annex A; IEC 61851-23; ISO 15118-2:2014, 8.8).
pub fn opens_for_a_reason<C: Coded>()
    ensures { RunsOpenForReasons (codecs C.negotiates C.reads C.encodes) }
{}

/// In every run, where a cause applies while the contactor is live, and none came before in that session, the next thing that the post does is
/// an order to open: before anything else is heard, and before anything is sent. An order to open that failed is no exception (IEC 61851-1,
/// annex A; IEC 61851-23; ISO 15118-2:2014, 8.7 and 8.8).
pub fn opens_at_first_causes<C: Coded>()
    ensures { RunsOpenFirst (codecs C.negotiates C.reads C.encodes) }
{}

/// Ends that no session has, whatever the codecs are: for nothing, by another cause than the one that came, or by a later one; and no session
/// goes on whose connection ended, or whose deadline passed. An end with the number of its cause is right.
pub fn wrong_ends_are_refused<C: Coded>()
    ensures for_nothing { wrong.EndsForNothing (codecs C.negotiates C.reads C.encodes) }
    ensures by_another { wrong.EndsByAnother (codecs C.negotiates C.reads C.encodes) }
    ensures by_later { wrong.EndsByLater (codecs C.negotiates C.reads C.encodes) }
    ensures goes_on { wrong.GoesOn (codecs C.negotiates C.reads C.encodes) }
    ensures goes_on_late { wrong.GoesOnLate (codecs C.negotiates C.reads C.encodes) }
    ensures rightly { wrong.EndsRightly (codecs C.negotiates C.reads C.encodes) }
{}
