//! What is offered at each place, written out.

ghost use Rattle.std.specs.Prelude.{◌≡◌, ◌≤◌, ◌<◌, ℕ, [], ◌∷◌, nat_lt, if◌then◌else◌, Some, false, length, slice_get};
ghost use Rattle.exi_schema.specs.Offers.{IsPlace, offers, behind_copy, simple_step};
ghost use Rattle.exi_schema.specs.Steps.{IsRoot, IsRootOf, simple_at};
ghost use Rattle.exi_schema.specs.declared.places.Step.TheVariants.{Element, End as TheEnd};
ghost use Rattle.exi_schema.specs.declared.tables.MemberStanding.TheVariants.{Taken};
ghost use Rattle.app_schema.specs.Declarations.{kinds, names, roots, negotiation_schema};
ghost use Rattle.app_schema.specs.Rows.{at, list_of, steps_of};

use crate::names::{
    APP_PROTOCOL, MAJOR, MINOR, NAMESPACE, PRIORITY, REQUEST, RESPONSE, RESPONSE_CODE, SCHEMA_ID,
};
use crate::tables::{
    CODE_NAME, NAMESPACE_TEXT, PRIORITY_NUMBER, PROTOCOL, REQUEST_KIND, RESPONSE_KIND,
    UNSIGNED_BYTE, UNSIGNED_INT,
};
use exi_schema::{
    Codes, Datatype, MemberStanding, Offer, OptionalSequence, Place, Places, Root, SequenceChild,
    Sought, Step, is_sought,
};

/// What is offered at a place: one step, or two.
#[derive(Clone, Copy)]
struct Row {
    first: Step,
    second: Option<Step>,
}

impl Row {
    ghost use Rattle.std.specs.Prelude.{None, IfSome};
    ghost use Rattle.exi_schema.specs.Offers.{IsWidth};
    ghost use Rattle.exi_schema.specs.Steps.{IsSought};
    ghost use Rattle.exi_schema.specs.declared.places.Step.{Step as SchemaStep};

    /// How many steps it has.
    #[inline(always)]
    fn count(self) -> u16
        ensures { result ≡ length (steps_of self) }
    {
        match self.second {
            Some(_) => 2,
            None => 1,
        }
    }

    /// How many bits a code has.
    #[tactic(auto, using(crate::proofs::Placed::width_of_one, crate::proofs::Placed::width_of_two))]
    #[inline(always)]
    fn width(self) -> u32
        ensures { IsWidth (length (steps_of self)) result }
    {
        match self.second {
            Some(_) => 2,
            None => 1,
        }
    }

    /// Its codes.
    #[inline(always)]
    fn codes(self) -> Codes
        ensures offered { result.offered ≡ length (steps_of self) }
        ensures width { IsWidth (length (steps_of self)) result.width }
    {
        Codes {
            offered: self.count(),
            width: self.width(),
        }
    }

    /// The code of a step, `None` exactly where it has none such.
    #[inline(always)]
    fn find(self, sought: Sought) -> Option<Offer>
        ensures offered { IfSome result (λ offer. slice_get (steps_of self) offer.code ≡ Some offer.step) }
        ensures width { IfSome result (λ offer. IsWidth (length (steps_of self)) offer.width) }
        ensures meant { IfSome result (λ offer. IsSought offer.step sought) }
        ensures few { length (steps_of self) ≤ 2 }
        ensures none { result ≡ None → (code : ℕ) (step : SchemaStep) → slice_get (steps_of self) code ≡ Some step → IsSought step sought → ⊥ }
    {
        let width = self.width();
        if is_sought(&self.first, sought) {
            return Some(Offer {
                code: 0,
                width,
                step: self.first,
            });
        }
        match self.second {
            Some(step) if is_sought(&step, sought) => Some(Offer {
                code: 1,
                width,
                step,
            }),
            _ => None,
        }
    }

    /// The step of a code.
    #[inline(always)]
    fn step(self, code: u16) -> Step
        requires { code < length (steps_of self) }
        ensures { Some result ≡ slice_get (steps_of self) code }
    {
        match self.second {
            Some(second) => { if code == 0 { self.first } else { second } }
            None => self.first,
        }
    }
}

/// A place behind so many particles of a kind.
#[inline(always)]
fn behind(kind: u16, particle: u16) -> Place
    ensures { result ≡ at kind particle 0 }
{
    Place {
        kind,
        particle,
        copies: 0,
        attributes: 0,
    }
}

/// An element that may stand there, and the place behind it.
#[inline(always)]
fn element(name: u16, kind: u16, next: Place) -> Step
    ensures { result ≡ Element name kind next Taken false }
{
    Step::Element {
        name,
        kind,
        next,
        standing: MemberStanding::Taken,
        past_limit: false,
    }
}

/// The characters of a value, or the end behind them.
#[inline(always)]
fn value_step(kind: u16, particle: u16) -> Step
    ensures { result ≡ simple_step (at kind particle 0) }
{
    if particle == 0 {
        Step::Characters {
            next: behind(kind, 1),
        }
    } else {
        Step::End
    }
}

/// What stands in an AppProtocol behind so many of its five elements.
#[inline(always)]
fn protocol_step(particle: u16) -> Step
    requires { particle ≤ 5 }
    ensures { result ∷ [] ≡ offers kinds (at 5 particle 0) }
{
    match particle {
        0 => element(NAMESPACE, NAMESPACE_TEXT, behind(PROTOCOL, 1)),
        1 => element(MAJOR, UNSIGNED_INT, behind(PROTOCOL, 2)),
        2 => element(MINOR, UNSIGNED_INT, behind(PROTOCOL, 3)),
        3 => element(SCHEMA_ID, UNSIGNED_BYTE, behind(PROTOCOL, 4)),
        4 => element(PRIORITY, PRIORITY_NUMBER, behind(PROTOCOL, 5)),
        _ => Step::End,
    }
}

/// The place behind an AppProtocol, before which there are so many.
#[inline(always)]
fn behind_protocol(copies: u16) -> Place
    requires { copies < 20 }
    ensures { result ≡ behind_copy 6 0 0 copies (Some 20) }
{
    if copies < 19 {
        Place {
            copies: copies + 1,
            ..behind(REQUEST_KIND, 0)
        }
    } else {
        behind(REQUEST_KIND, 1)
    }
}

/// The end of a request, where it has a protocol.
#[inline(always)]
fn end_behind(copies: u16) -> Option<Step>
    ensures { list_of result ≡ (if nat_lt copies 1 then [] else TheEnd ∷ []) }
{
    if copies < 1 { None } else { Some(Step::End) }
}

/// What stands in a request behind so many protocols.
#[inline(always)]
fn protocol_or_end(copies: u16) -> Row
    requires { copies < 20 }
    ensures { steps_of result ≡ offers kinds (at 6 0 copies) }
{
    Row {
        first: element(APP_PROTOCOL, PROTOCOL, behind_protocol(copies)),
        second: end_behind(copies),
    }
}

/// What stands in a response behind so many of its elements.
#[inline(always)]
fn response_row(particle: u16) -> Row
    requires { particle ≤ 2 }
    ensures { steps_of result ≡ offers kinds (at 7 particle 0) }
{
    match particle {
        0 => Row {
            first: element(RESPONSE_CODE, CODE_NAME, behind(RESPONSE_KIND, 1)),
            second: None,
        },
        1 => Row {
            first: element(SCHEMA_ID, UNSIGNED_BYTE, behind(RESPONSE_KIND, 2)),
            second: Some(Step::End),
        },
        _ => Row {
            first: Step::End,
            second: None,
        },
    }
}

/// What is offered at a place of the schema.
#[inline(always)]
fn row_at(place: Place) -> Row
    requires { IsPlace kinds place }
    ensures { steps_of result ≡ offers kinds place }
{
    if place.kind < PROTOCOL {
        return one(value_step(place.kind, place.particle));
    }
    if place.kind == PROTOCOL {
        return one(protocol_step(place.particle));
    }
    if place.kind == REQUEST_KIND {
        if place.particle == 0 {
            return protocol_or_end(place.copies);
        }
        return one(Step::End);
    }
    response_row(place.particle)
}

/// One step.
#[inline(always)]
fn one(first: Step) -> Row
    ensures { steps_of result ≡ first ∷ [] }
{
    Row {
        first,
        second: None,
    }
}

/// The datatype of a kind, if it is simple.
#[inline(always)]
fn datatype_at(kind: u16) -> Option<Datatype>
    requires { kind < length kinds }
    ensures { result ≡ simple_at kinds kind }
{
    match kind {
        NAMESPACE_TEXT => Some(Datatype::Text { most: 100 }),
        UNSIGNED_INT => Some(Datatype::Unsigned {
            most: 4_294_967_295,
        }),
        UNSIGNED_BYTE => Some(Datatype::Bounded {
            least: 0,
            count: 256,
        }),
        PRIORITY_NUMBER => Some(Datatype::Bounded {
            least: 1,
            count: 20,
        }),
        CODE_NAME => Some(Datatype::Named { count: 3 }),
        _ => None,
    }
}

/// What a document number names.
#[inline(always)]
fn root_at(number: u32) -> Root
    ensures named { IsRoot roots 2 number result }
    ensures of_schema { IsRootOf kinds (length names) result }
{
    match number {
        0 => Root::Kind {
            name: REQUEST,
            kind: REQUEST_KIND,
        },
        1 => Root::Kind {
            name: RESPONSE,
            kind: RESPONSE_KIND,
        },
        3 => Root::NoSuch,
        _ => Root::Unknown,
    }
}

/// The schema of the negotiation in code, so that a look-up is no walk over tables (W3C EXI 1.0, Second Edition, 8.5.4). Contracts see
/// `negotiation_schema`.
#[derive(Clone, Copy)]
pub struct NegotiationPlaces;

impl Places for NegotiationPlaces {
    ghost schema = { λ _. negotiation_schema };

    ghost keeps_sequences = { λ _. false };

    #[inline(always)]
    fn alternatives(&self, place: Place) -> u16 {
        row_at(place).count()
    }

    #[inline(always)]
    fn codes(&self, place: Place) -> Codes {
        row_at(place).codes()
    }

    #[inline(always)]
    fn find(&self, place: Place, sought: Sought) -> Option<Offer> {
        row_at(place).find(sought)
    }

    #[inline(always)]
    fn width(&self, place: Place) -> u32 {
        row_at(place).width()
    }

    #[inline(always)]
    fn advance(&self, place: Place, code: u16) -> Step {
        row_at(place).step(code)
    }

    #[inline(always)]
    fn datatype(&self, kind: u16) -> Option<Datatype> {
        datatype_at(kind)
    }

    #[inline(always)]
    fn sequence(&self, _kind: u16) -> &[SequenceChild] {
        &[]
    }

    #[inline(always)]
    fn optional_sequence(&self, _kind: u16) -> Option<&OptionalSequence> {
        None
    }

    #[inline(always)]
    fn root_width(&self) -> u32 {
        2
    }

    #[inline(always)]
    fn root(&self, number: u32) -> Root {
        root_at(number)
    }
}
