//! A law of foreign traces (ISO 15118-2:2014, section 8.2, 8.4.3.8; DIN SPEC 70121:2014): who reads a trace by all messages of a site reads a station's own
//! words in it.
//!
//! Proved: `codecs_tell_own`: the definitions that the reader of foreign traces is proved by tell a station's own words (`TellsOwn`), so that its own whole
//! run passes the checks that ask for no more. `codecs_weigh_right`: what they read of the watts that a reply's payload writes is no more than what its
//! word tells (`WeighsRightly`), so that the sixth check passes too. `codecs_write_right`: a reply's payload writes the watts that its word tells
//! (`WritesRightly`). `codecs_find_no_fault`: so no check fails of a station's own whole run at any line (`HasNoFault`).
#![tactic(auto)]

ghost use Rattle.told_codecs.specs.Site.{Reads, Encodes};
ghost use Rattle.told_codecs.specs.Negotiating.{Negotiates};
ghost use Rattle.told_codecs.specs.Watts.{Watts};
ghost use Rattle.told_codecs.specs.Responses.{Responds};
ghost use Rattle.faultless_pasts.specs.Faultless.{told_codecs};
ghost use Rattle.own_courses.specs.Owning.{TellsOwn};
ghost use Rattle.own_courses.specs.Weighing.{WeighsRightly};
ghost use Rattle.own_courses.specs.Writing.{WritesRightly};
ghost use Rattle.own_codecs.specs.Courses.{HasNoFault};

pub use told_codecs;

/// What is told of a trace by the messages of a site tells its station's own words.
pub fn codecs_tell_own()
    ensures { TellsOwn (told_codecs Negotiates Reads Encodes Responds Watts) }
{}

/// The payload of a reply whose schedules have one entry each writes no more watts than are told to whoever reads it.
pub fn codecs_weigh_right()
    ensures { WeighsRightly (told_codecs Negotiates Reads Encodes Responds Watts) }
{}

/// The payload of a reply writes the watts that its word tells.
pub fn codecs_write_right()
    ensures { WritesRightly (told_codecs Negotiates Reads Encodes Responds Watts) }
{}

/// Of a station's own whole run no check fails at any line.
pub fn codecs_find_no_fault()
    ensures { HasNoFault (told_codecs Negotiates Reads Encodes Responds Watts) }
{}
