//! Places in an element, and what is offered there.

use crate::tables::{Datatype, MemberStanding};

/// A place inside an element.
#[derive(Clone, Copy, PartialEq, Eq)]
pub struct Place {
    /// The number of the element's kind.
    pub kind: u16,
    /// How many particles are passed. In a simple kind 0 is before the characters, and 1 behind them.
    pub particle: u16,
    /// How many copies of the next particle are passed.
    pub copies: u16,
    /// How many attributes are passed, taken or left out.
    pub attributes: u16,
}

impl Place {
    ghost use Rattle.std.specs.Prelude.{◌≡◌, ◌<◌, length};
    ghost use Rattle.exi_schema.specs.Offers.{IsPlace};
    ghost use Rattle.exi_schema.specs.Schemas.{PlainSchema};

    /// The first place of an element of a kind. It is a place of each schema that has the kind.
    pub fn first(kind: u16) -> Place
        ensures first { result ≡ record { kind = kind; particle = 0; copies = 0; attributes = 0 } }
        ensures of_schema { (s : PlainSchema) → kind < length s.kinds → IsPlace s.kinds result }
    {
        Place {
            kind,
            particle: 0,
            copies: 0,
            attributes: 0,
        }
    }
}

/// What an event code means at a place.
#[derive(Clone, Copy, PartialEq, Eq)]
pub enum Step {
    /// An attribute with the numbers of its name and kind, and the place behind it.
    Attribute {
        name: u16,
        kind: u16,
        next: Place,
    },
    /// An element with the numbers of its name and kind, the place behind it and whether it may stand there. Where it passes
    /// its particle's profile limit, the place behind it is the present one (own).
    Element {
        name: u16,
        kind: u16,
        next: Place,
        standing: MemberStanding,
        past_limit: bool,
    },
    /// The end of the element.
    End,
    /// The characters of a simple kind, and the place behind them.
    Characters {
        next: Place,
    },
}

/// The event codes of a place.
#[derive(Clone, Copy)]
pub struct Codes {
    /// How many are offered.
    pub offered: u16,
    /// How many bits each has.
    pub width: u32,
}

/// What is looked for among the steps of a place.
#[derive(Clone, Copy)]
pub enum Sought {
    /// The attribute with this name.
    Attribute(u16),
    /// The element with this name, where it may stand there and does not pass its particle's limit.
    Element(u16),
    /// The end of the element.
    End,
    /// The characters of a simple kind.
    Characters,
}

/// An event code that is offered at a place.
#[derive(Clone, Copy)]
pub struct Offer {
    /// The code.
    pub code: u16,
    /// How many bits it has.
    pub width: u32,
    /// What it means.
    pub step: Step,
}

/// A child of a sequence of values.
#[derive(Clone, Copy)]
pub struct SequenceChild {
    /// The number of its name.
    pub name: u16,
    /// The datatype of its value.
    pub datatype: Datatype,
}

/// The children of a sequence of three values, of which the second may be absent.
#[derive(Clone, Copy)]
pub struct OptionalSequence {
    /// The first.
    pub first: SequenceChild,
    /// The one that may be absent.
    pub second: SequenceChild,
    /// The third.
    pub third: SequenceChild,
}

/// What a document number names.
#[derive(Clone, Copy, PartialEq, Eq)]
pub enum Root {
    /// The element with the numbers of its name and kind.
    Kind { name: u16, kind: u16 },
    /// No element of the schema.
    Unknown,
    /// The number 3 where document numbers have 2 bits, which is no code at all.
    NoSuch,
}

/// What a reader or a writer asks of a schema, in whatever form the schema is kept.
pub trait Places {
    ghost use Rattle.std.specs.Prelude.{◌≡◌, ℕ, ◌<◌, ◌^◌, Bool, true, Some, None, IfSome, option_copied, slice_get, length};
    ghost use Rattle.exi_schema.specs.declared.places.OptionalSequence.{OptionalSequence as OptionalChildren};
    ghost use Rattle.exi_schema.specs.declared.places.Step.{Step as SchemaStep};
    ghost use Rattle.exi_schema.specs.Offers.{IsPlace, IsWidth, offers};
    ghost use Rattle.exi_schema.specs.Schemas.{PlainSchema};
    ghost use Rattle.exi_schema.specs.Sequences.{TellsSequence, KeepsSequence, IsOptionalSequence};
    ghost use Rattle.exi_schema.specs.Steps.{IsStep, IsSought, IsRoot, IsRootOf, simple_at};

    /// The schema that the value tells.
    ghost schema: { Self → PlainSchema };

    /// Whether each sequence of at most eight values is kept, and each of three of which the second may be absent.
    ghost keeps_sequences: { Self → Bool };

    /// How many event codes are offered at a place of the schema.
    fn alternatives(&self, place: Place) -> u16
        requires { IsPlace (schema self.now).kinds place }
        ensures { result ≡ length (offers (schema self.now).kinds place) };

    /// The event codes of a place of the schema, in one look-up.
    fn codes(&self, place: Place) -> Codes
        requires { IsPlace (schema self.now).kinds place }
        ensures offered { result.offered ≡ length (offers (schema self.now).kinds place) }
        ensures width { IsWidth (length (offers (schema self.now).kinds place)) result.width };

    /// The code of a step at a place of the schema, in one look-up; `None` exactly where it is not offered.
    fn find(&self, place: Place, sought: Sought) -> Option<Offer>
        requires { IsPlace (schema self.now).kinds place }
        ensures offered { IfSome result (λ offer. slice_get (offers (schema self.now).kinds place) offer.code ≡ Some offer.step) }
        ensures width { IfSome result (λ offer. IsWidth (length (offers (schema self.now).kinds place)) offer.width) }
        ensures meant { IfSome result (λ offer. IsSought offer.step sought) }
        ensures of_schema { IfSome result (λ offer. IsStep (schema self.now).kinds (length (schema self.now).names) place.kind offer.step) }
        ensures few { IfSome result (λ _. length (offers (schema self.now).kinds place) < 2 ^ 16) }
        ensures none { result ≡ None → (code : ℕ) (step : SchemaStep) → slice_get (offers (schema self.now).kinds place) code ≡ Some step → IsSought step sought → ⊥ };

    /// How many bits an event code has at a place of the schema.
    fn width(&self, place: Place) -> u32
        requires { IsPlace (schema self.now).kinds place }
        ensures { IsWidth (length (offers (schema self.now).kinds place)) result };

    /// What an event code means at a place of the schema, where it is below the alternatives.
    fn advance(&self, place: Place, code: u16) -> Step
        requires place { IsPlace (schema self.now).kinds place }
        requires code { code < length (offers (schema self.now).kinds place) }
        ensures taken { Some result ≡ slice_get (offers (schema self.now).kinds place) code }
        ensures of_schema { IsStep (schema self.now).kinds (length (schema self.now).names) place.kind result };

    /// The datatype of a kind of the schema, `None` exactly where it is complex.
    fn datatype(&self, kind: u16) -> Option<Datatype>
        requires { kind < length (schema self.now).kinds }
        ensures { result ≡ simple_at (schema self.now).kinds kind };

    /// The children of a kind of the schema that is a sequence of values: it has no attributes, and each child has to be there once, is of
    /// a simple kind, and is the only one that may stand there. Empty for any other kind, and where the sequences are not kept.
    fn sequence(&self, kind: u16) -> &[SequenceChild]
        requires { kind < length (schema self.now).kinds }
        ensures tells { TellsSequence (schema self.now).kinds (record { kind = kind; particle = 0; copies = 0; attributes = 0 }) result.now }
        ensures whole { keeps_sequences self.now ≡ true → KeepsSequence (schema self.now).kinds (record { kind = kind; particle = 0; copies = 0; attributes = 0 }) result.now };

    /// The children of a kind of the schema that is a sequence of three values of which the second may be absent: it has no attributes, each child
    /// is of a simple kind, and nothing else may stand there. `None` for any other kind, and where such sequences are not kept.
    fn optional_sequence(&self, kind: u16) -> Option<&OptionalSequence>
        requires { kind < length (schema self.now).kinds }
        ensures tells { IfSome result (λ it. IsOptionalSequence (schema self.now).kinds (record { kind = kind; particle = 0; copies = 0; attributes = 0 }) it.now) }
        ensures whole { keeps_sequences self.now ≡ true → (all : OptionalChildren) → IsOptionalSequence (schema self.now).kinds (record { kind = kind; particle = 0; copies = 0; attributes = 0 }) all
            → option_copied result ≡ Some all };

    /// How many bits a document number has.
    fn root_width(&self) -> u32
        ensures { result ≡ (schema self.now).root_bits };

    /// What a document number names.
    fn root(&self, number: u32) -> Root
        ensures named { IsRoot (schema self.now).roots (schema self.now).root_bits number result }
        ensures of_schema { IsRootOf (schema self.now).kinds (length (schema self.now).names) result };
}
