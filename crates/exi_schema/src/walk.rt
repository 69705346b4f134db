//! Walks over the parts of a kind.

ghost use Rattle.std.specs.Prelude.{◌↔◌, IsTrue, ◌≡◌, ◌<◌, ◌≤◌, length, drop, Some, slice_get, All};
ghost use Rattle.std.specs.List.{list_any};
ghost use Rattle.exi_schema.specs.Counts.{element_total, root_numbered};
ghost use Rattle.exi_schema.specs.Plain.{plain_particle, plain_particles};
ghost use Rattle.exi_schema.specs.Steps.{IsSought};
ghost use Rattle.exi_schema.specs.Offers.{through_required, element_steps, attribute_step as attribute_of, complex_steps, IsPlaceAmong, element_step as step_of, behind_copy as place_behind, simple_step as step_of_simple, IsWidth};

use crate::places::{Place, Root, Sought, Step};
use crate::tables::{AttributeOf, Member, MemberStanding, Particle, RootOf};

/// How many attributes there are up to the first that has to be there.
fn attribute_count(attributes: &[AttributeOf]) -> usize
    ensures { result ≡ length (through_required attributes.now) }
{
    for (i, attribute) in attributes.iter().enumerate() {
        if attribute.required {
            return i + 1;
        }
    }
    attributes.len()
}

/// How many elements, with the end, are offered where `copies` of the first particle are passed.
fn element_count(particles: &[Particle], copies: u32) -> usize
    requires { element_total copies (plain_particles particles.now) ≤ 65535 }
    ensures { result ≡ element_total copies (plain_particles particles.now) }
{
    let mut count = 0;
    let mut passed = copies;
    for particle in particles {
        count += particle.members.len();
        if passed < particle.least {
            return count;
        }
        passed = 0;
    }
    count + 1
}

/// A member as a copy of its particle. `here` is the present place, and `copies` of the particle are passed.
fn element_step(
    here: Place,
    attributes: u16,
    at: u16,
    copies: u16,
    particle: &Particle,
    member: Member,
) -> Step
    requires particles { at < 65535 }
    requires profile { particle.now.profile < 65536 }
    ensures { result ≡ step_of here attributes at copies (plain_particle particle.now) member }
{
    let past_limit = u32::from(copies) >= particle.profile;
    let next = if past_limit {
        here
    } else {
        behind_copy(here.kind, attributes, at, copies, particle.most)
    };
    Step::Element {
        name: member.name,
        kind: member.kind,
        next,
        standing: member.standing,
        past_limit,
    }
}

/// The place behind a copy of the particle `at`.
fn behind_copy(kind: u16, attributes: u16, at: u16, copies: u16, most: Option<u32>) -> Place
    requires particles { at < 65535 }
    requires copies { copies < 65535 }
    ensures { result ≡ place_behind kind attributes at copies most }
{
    let room = match most {
        Some(most) => u32::from(copies) + 1 < most,
        None => true,
    };
    if room {
        Place {
            kind,
            particle: at,
            copies: copies + 1,
            attributes,
        }
    } else {
        Place {
            kind,
            particle: at + 1,
            copies: 0,
            attributes,
        }
    }
}

/// The element, or the end, that a code means at a place behind the attributes.
fn element_at(particles: &[Particle], here: Place, attributes: u16, code: usize) -> Step
    requires particles { length particles.now ≤ 65535 }
    requires profiles { All (λ particle. particle.profile < 65536) particles.now }
    requires place { here.particle ≤ length particles.now }
    requires offered { code < element_total here.copies (drop here.particle (plain_particles particles.now)) }
    ensures { Some result ≡ slice_get (element_steps here attributes here.particle here.copies (drop here.particle (plain_particles particles.now))) code }
{
    let mut left = code;
    let mut copies = here.copies;
    for at in here.particle as usize..particles.len() {
        let particle = &particles[at];
        if left < particle.members.len() {
            return element_step(
                here,
                attributes,
                at as u16,
                copies,
                particle,
                particle.members[left],
            );
        }
        left -= particle.members.len();
        copies = 0;
    }
    Step::End
}

/// An attribute, which has the number `at` in its kind.
fn attribute_step(here: Place, attribute: AttributeOf, at: u16) -> Step
    requires { at < 65535 }
    ensures { result ≡ attribute_of here at attribute }
{
    Step::Attribute {
        name: attribute.name,
        kind: attribute.kind,
        next: Place {
            kind: here.kind,
            particle: here.particle,
            copies: here.copies,
            attributes: at + 1,
        },
    }
}

/// Whether one of the attributes has to be there.
fn any_required(attributes: &[AttributeOf]) -> bool
    ensures { result ≡ list_any (λ attribute. attribute.required) attributes.now }
{
    attributes.iter().any(|attribute| attribute.required)
}

/// How many codes are offered at a place of a complex kind.
#[tactic(auto, using(crate::proofs::TablesTell::length_in))]
pub(crate) fn complex_count(attributes: &[AttributeOf], particles: &[Particle], place: Place) -> u16
    requires place { IsPlaceAmong place attributes.now (plain_particles particles.now) }
    requires few { length (complex_steps place attributes.now (plain_particles particles.now)) ≤ 65535 }
    ensures { result ≡ length (complex_steps place attributes.now (plain_particles particles.now)) }
{
    let (_, left) = attributes.split_at(place.attributes as usize);
    let count = attribute_count(left);
    if any_required(left) {
        return count as u16;
    }
    let (_, next) = particles.split_at(place.particle as usize);
    (count + element_count(next, u32::from(place.copies))) as u16
}

/// What a code means at a place of a complex kind.
pub(crate) fn complex_step(
    attributes: &[AttributeOf],
    particles: &[Particle],
    place: Place,
    code: u16,
) -> Step
    requires place { IsPlaceAmong place attributes.now (plain_particles particles.now) }
    requires offered { code < length (complex_steps place attributes.now (plain_particles particles.now)) }
    requires attributes { length attributes.now ≤ 65535 }
    requires particles { length particles.now ≤ 65535 }
    requires profiles { All (λ particle. particle.profile < 65536) particles.now }
    ensures { Some result ≡ slice_get (complex_steps place attributes.now (plain_particles particles.now)) code }
{
    let (_, left) = attributes.split_at(place.attributes as usize);
    let count = attribute_count(left);
    let code = code as usize;
    if code < count {
        let attribute = left[code];
        attribute_step(place, attribute, place.attributes + code as u16)
    } else {
        element_at(particles, place, attributes.len() as u16, code - count)
    }
}

/// The one step at a place of a simple kind.
#[inline(always)]
pub fn simple_step(here: Place) -> Step
    ensures { result ≡ step_of_simple here }
{
    if here.particle == 0 {
        Step::Characters {
            next: Place {
                kind: here.kind,
                particle: 1,
                copies: 0,
                attributes: 0,
            },
        }
    } else {
        Step::End
    }
}

/// Whether a step is what is looked for, and may be taken.
#[inline(always)]
pub fn is_sought(step: &Step, sought: Sought) -> bool
    ensures { IsTrue result ↔ IsSought step.now sought }
{
    match step {
        Step::Attribute { name, .. } => match sought {
            Sought::Attribute(n) => n == *name,
            _ => false,
        },
        Step::Element {
            name,
            standing: MemberStanding::Taken,
            past_limit: false,
            ..
        } => match sought {
            Sought::Element(n) => n == *name,
            _ => false,
        },
        Step::Element { .. } => false,
        Step::End => matches!(sought, Sought::End),
        Step::Characters { .. } => matches!(sought, Sought::Characters),
    }
}

/// How many bits a code has where n codes are offered: the least number in which n + 1 codes differ (8.5.4.4).
pub fn width_for(n: u32) -> u32
    requires { n ≤ 65535 }
    ensures { IsWidth n result }
{
    32 - n.leading_zeros()
}

/// The element that a document number names among some roots: the first that has it.
pub fn root_in(roots: &[RootOf], number: u32) -> Root
    ensures { result ≡ root_numbered roots.now number }
{
    for root in roots {
        if root.number == number {
            return Root::Kind {
                name: root.name,
                kind: root.kind,
            };
        }
    }
    Root::Unknown
}
