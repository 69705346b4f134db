//! Laws of foreign traces (IEC 61851-1; IEC 61851-23; ISO 15118-2:2014, sections 8.4 and 8.8; DIN SPEC 70121:2014): the course of a session that is told by a
//! station's own trace is that of its run, so an audit finds no fault in it.
//!
//! Proved: in no whole run of a site does a check of foreign traces fail at any line: of the third for any codecs that tell a station's own words
//! (`TellsOwn`: `opens_at_causes`); of the seventh for those that besides tell the watts of a reply as it wrote them (`WritesRightly`:
//! `writes_told_watts`); and of all ten for those that tell no more watts than a reply has, too (`WeighsRightly`: `finds_no_fault`).
#![tactic(auto)]

ghost use Rattle.faultless_pasts.specs.Faultless.{told_codecs};
ghost use Rattle.own_traces.specs.Owning.{PassesOwn};
ghost use Rattle.own_courses.specs.Faultless.{FindsNoFault};
ghost use Rattle.own_courses.specs.Writing.{PassesWritten};

use faultless_pasts::ToldCoded;

/// What ends a session opens its live contactor, before anything else is heard, and before anything is sent to its car.
pub fn opens_at_causes<C: ToldCoded>()
    ensures { PassesOwn (told_codecs C.negotiates C.reads C.encodes C.responds C.watts) 3 }
{}

/// A reply of the OK class that has watts writes those that its post was told.
pub fn writes_told_watts<C: ToldCoded>()
    ensures { PassesWritten (told_codecs C.negotiates C.reads C.encodes C.responds C.watts) 7 }
{}

/// An audit finds no fault in a station's own whole run.
pub fn finds_no_fault<C: ToldCoded>()
    ensures { FindsNoFault (told_codecs C.negotiates C.reads C.encodes C.responds C.watts) }
{}
