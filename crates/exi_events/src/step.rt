//! Event codes, and the front of a document, taken from a payload.

ghost use Rattle.std.specs.Prelude.{◌≡◌, ℕ, List, [], ◌∷◌, OnOk, ◌+◌, ◌==◌, if◌then◌else◌, length, None, IfOk, IfErr};
ghost use Rattle.exi_spec.specs.Items.{SpellsNumber};
ghost use Rattle.exi_bits.specs.Reading.{Takes, ahead};
ghost use Rattle.exi_schema.specs.declared.places.Place.{Place as SchemaPlace};
ghost use Rattle.exi_schema.specs.declared.places.Root.TheVariants.{Kind};
ghost use Rattle.exi_schema.specs.declared.places.Step.{Step as SchemaStep};
ghost use Rattle.exi_schema.specs.Offers.{IsPlace, offers};
ghost use Rattle.exi_schema.specs.Plain.{PlainKind};
ghost use Rattle.exi_schema.specs.Steps.{IsStep, IsRoot, IsRootOf};
ghost use Rattle.exi_writing.specs.Documents.{SpellsStep};
ghost use Rattle.exi_writing.specs.Refusals.{RefusesStep, step_cause, RefusesFront, RefusesHeader, RefusesNumber};
ghost use Rattle.exi_writing.specs.RefusalCause.TheVariants as cause;
ghost use Rattle.exi_events.specs.Front.{SpellsHeader, SpellsFront};

use exi_schema::{MemberStanding, Place, Places, Root, Step};
use exi_writing::exi_documents::{Refusal, RefusalCause};
use exi_writing::exi_reading::PayloadReader;

/// Takes the event code at a place: what it means, where that may stand there.
#[tactic(auto, using(crate::proofs::Codes::code_refused, crate::proofs::Codes::none_behind, crate::proofs::Limits::few_code_bits))]
#[inline(always)]
pub(crate) fn take_step<P: Places>(
    reader: &mut PayloadReader,
    places: &P,
    here: Place,
) -> Result<Step, Refusal>
    requires { IsPlace (P.schema places.now).kinds here }
    ensures ok { IfOk result (λ step. Takes (SpellsStep (P.schema places.now).kinds here step) reader.old reader.new) }
    ensures taken { IfOk result (λ step. step_cause step ≡ None) }
    ensures of_schema { IfOk result (λ step. IsStep (P.schema places.now).kinds (length (P.schema places.now).names) here.kind step) }
    ensures refused { IfErr result (λ r. RefusesStep (P.schema places.now).kinds here (ahead reader.old) r.cause) }
    ensures at { IfErr result (λ r. r.bit ≡ reader.old.place) }
    ensures same { reader.new.bits ≡ reader.old.bits }
{
    let bit = reader.place();
    let codes = places.codes(here);
    let offered = u32::from(codes.offered);
    let code = reader.take_number(codes.width)?;
    if code >= offered {
        return Err(Refusal {
            cause: not_offered(code, offered),
            bit,
        });
    }
    let step = places.advance(here, code as u16);
    match wrong_with(&step) {
        None => Ok(step),
        Some(cause) => Err(Refusal { cause, bit }),
    }
}

/// Takes the one event code at a place where one thing alone is offered, which has one bit.
#[tactic(auto, using(crate::proofs::Simple::step_taken, crate::proofs::Simple::code_refused, crate::proofs::Simple::bits_refused))]
#[inline(always)]
pub(crate) fn take_only(reader: &mut PayloadReader) -> Result<(), Refusal>
    ensures ok { (kinds : List PlainKind) (here : SchemaPlace) (step : SchemaStep) → offers kinds here ≡ step ∷ [] → OnOk result (Takes (SpellsStep kinds here step) reader.old reader.new) }
    ensures refused { (kinds : List PlainKind) (here : SchemaPlace) (step : SchemaStep) → offers kinds here ≡ step ∷ [] → IfErr result (λ r. RefusesStep kinds here (ahead reader.old) r.cause) }
    ensures at { IfErr result (λ r. r.bit ≡ reader.old.place) }
    ensures same { reader.new.bits ≡ reader.old.bits }
{
    let bit = reader.place();
    let code = reader.take_number(1)?;
    if code >= 1 {
        return Err(Refusal {
            cause: not_offered(code, 1),
            bit,
        });
    }
    Ok(())
}

/// What is wrong with a code that is not offered: the first one is the escape.
fn not_offered(code: u32, offered: u32) -> RefusalCause
    ensures { result ≡ (if code == offered then cause.Deviation else cause.NoSuchCode) }
{
    if code == offered {
        RefusalCause::Deviation
    } else {
        RefusalCause::NoSuchCode
    }
}

/// What is wrong with a step that is offered.
fn wrong_with(step: &Step) -> Option<RefusalCause>
    ensures { result ≡ step_cause step.now }
{
    match step {
        Step::Element {
            past_limit: true,
            ..
        } => Some(RefusalCause::TooLong),
        Step::Element {
            name,
            standing: MemberStanding::OutOfProfile,
            ..
        } => Some(RefusalCause::OutOfProfile { name: *name }),
        Step::Element {
            standing: MemberStanding::Abstract,
            ..
        } => Some(RefusalCause::Abstract),
        Step::Element { .. } | Step::Attribute { .. } | Step::End | Step::Characters { .. } => None,
    }
}

#[tactic(auto, using(crate::proofs::Front::other_header))]
/// Takes the header byte of a document without cookie and options.
fn take_header(reader: &mut PayloadReader) -> Result<(), Refusal>
    ensures ok { OnOk result (Takes SpellsHeader reader.old reader.new) }
    ensures refused { IfErr result (λ r. RefusesHeader (ahead reader.old) r.cause) }
    ensures at { IfErr result (λ r. r.bit ≡ reader.old.place) }
    ensures same { reader.new.bits ≡ reader.old.bits }
{
    let bit = reader.place();
    let header = reader.take_number(8)?;
    if header != 0x80 {
        return Err(Refusal {
            cause: RefusalCause::BadHeader,
            bit,
        });
    }
    Ok(())
}

/// The root that a document number names.
#[derive(Clone, Copy)]
pub(crate) struct RootNumber {
    pub(crate) number: u32,
    pub(crate) name: u16,
    pub(crate) kind: u16,
}

/// Takes a document number that names a root.
#[tactic(auto, using(crate::proofs::Limits::few_root_bits))]
fn take_root<P: Places>(reader: &mut PayloadReader, places: &P) -> Result<RootNumber, Refusal>
    ensures ok { IfOk result (λ root. Takes (SpellsNumber (P.schema places.now).root_bits root.number) reader.old reader.new) }
    ensures named { IfOk result (λ root. IsRoot (P.schema places.now).roots (P.schema places.now).root_bits root.number (Kind root.name root.kind)) }
    ensures of_schema { IfOk result (λ root. IsRootOf (P.schema places.now).kinds (length (P.schema places.now).names) (Kind root.name root.kind)) }
    ensures refused { IfErr result (λ r. RefusesNumber (P.schema places.now) (ahead reader.old) r.cause) }
    ensures at { IfErr result (λ r. r.bit ≡ reader.old.place) }
    ensures same { reader.new.bits ≡ reader.old.bits }
{
    let bit = reader.place();
    let number = reader.take_number(places.root_width())?;
    match places.root(number) {
        Root::Kind { name, kind } => Ok(RootNumber { number, name, kind }),
        Root::Unknown => Err(Refusal {
            cause: RefusalCause::UnknownElement,
            bit,
        }),
        Root::NoSuch => Err(Refusal {
            cause: RefusalCause::NoSuchCode,
            bit,
        }),
    }
}

/// Takes the header and the document number.
#[tactic(auto, using(crate::proofs::Front::header_refused))]
pub(crate) fn take_front<P: Places>(
    reader: &mut PayloadReader,
    places: &P,
) -> Result<RootNumber, Refusal>
    ensures ok { IfOk result (λ root. Takes (SpellsFront (P.schema places.now) root.number) reader.old reader.new) }
    ensures named { IfOk result (λ root. IsRoot (P.schema places.now).roots (P.schema places.now).root_bits root.number (Kind root.name root.kind)) }
    ensures of_schema { IfOk result (λ root. IsRootOf (P.schema places.now).kinds (length (P.schema places.now).names) (Kind root.name root.kind)) }
    ensures refused { IfErr result (λ r. (at : ℕ) × RefusesFront (P.schema places.now) (ahead reader.old) r.cause at × (r.bit ≡ reader.old.place + at)) }
    ensures same { reader.new.bits ≡ reader.old.bits }
{
    take_header(reader)?;
    take_root(reader, places)
}
