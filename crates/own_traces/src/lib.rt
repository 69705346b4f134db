//! Laws of foreign traces (IEC 61851-1; IEC 61851-23; ISO 15118-2:2014, sections 8.2, 8.4 and 8.8; DIN SPEC 70121:2014): what an audit may find in a trace
//! of a station's own run.
//!
//! Proved: in no whole run of a site does a check of foreign traces fail at any line: of the fourth, eighth and tenth for any codecs (`opens_again`,
//! `ends_open`, `reads_words`); of the first, second, fifth and ninth for any codecs that tell a station's own words (`TellsOwn`: `closes_as_mandated`,
//! `fails_none_while_live`, `holds_as_mandated`, `answers_requests`); of the sixth for those that besides tell no more watts than a reply has
//! (`WeighsRightly`: `spells_within`). So the third and the seventh are left (`only_courses_are_left`, `few_checks_are_left`).
#![tactic(auto)]

ghost use Rattle.faultless_pasts.specs.Faultless.{told_codecs};
ghost use Rattle.own_traces.specs.Leaving.{FewAreLeft, OnlyCoursesAreLeft};
ghost use Rattle.own_traces.specs.Own.{Passes};
ghost use Rattle.own_traces.specs.Owning.{PassesOwn};
ghost use Rattle.own_traces.specs.Weighing.{PassesWeighed};

use faultless_pasts::ToldCoded;

/// A block that follows a failed order begins with an order to open.
pub fn opens_again<C: ToldCoded>()
    ensures { Passes (told_codecs C.negotiates C.reads C.encodes C.responds C.watts) 4 }
{}

/// At the end of a run each live contactor was ordered open.
pub fn ends_open<C: ToldCoded>()
    ensures { Passes (told_codecs C.negotiates C.reads C.encodes C.responds C.watts) 8 }
{}

/// Behind each block no word is left.
pub fn reads_words<C: ToldCoded>()
    ensures { Passes (told_codecs C.negotiates C.reads C.encodes C.responds C.watts) 10 }
{}

/// While its contactor is live, a station sends no FAILED reply, and no response to a negotiation.
pub fn fails_none_while_live<C: ToldCoded>()
    ensures { PassesOwn (told_codecs C.negotiates C.reads C.encodes C.responds C.watts) 2 }
{}

/// All that a station sends is the reply to the first word that has none.
pub fn answers_requests<C: ToldCoded>()
    ensures { PassesOwn (told_codecs C.negotiates C.reads C.encodes C.responds C.watts) 9 }
{}

/// Each contactor is ordered closed only where its session is mandated to it.
pub fn closes_as_mandated<C: ToldCoded>()
    ensures { PassesOwn (told_codecs C.negotiates C.reads C.encodes C.responds C.watts) 1 }
{}

/// Behind each block a contactor that is closed is mandated to be, but where an order to open it failed.
pub fn holds_as_mandated<C: ToldCoded>()
    ensures { PassesOwn (told_codecs C.negotiates C.reads C.encodes C.responds C.watts) 5 }
{}

/// The watts that all posts were told together, and those that their last replies write, stay within the limit of the site.
pub fn spells_within<C: ToldCoded>()
    ensures { PassesWeighed (told_codecs C.negotiates C.reads C.encodes C.responds C.watts) 6 }
{}

/// A station's own whole run passes all checks but the two that follow the course of a session, of which it isn't shown.
pub fn only_courses_are_left<C: ToldCoded>()
    ensures { OnlyCoursesAreLeft (told_codecs C.negotiates C.reads C.encodes C.responds C.watts) }
{}

/// And all but these and the one on the watts that replies write, where nothing more is known of those.
pub fn few_checks_are_left<C: ToldCoded>()
    ensures { FewAreLeft (told_codecs C.negotiates C.reads C.encodes C.responds C.watts) }
{}
