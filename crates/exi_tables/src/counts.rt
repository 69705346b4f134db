//! How many places a kind has.

ghost use Rattle.std.specs.Prelude.{◌≡◌};
ghost use Rattle.exi_schema.specs.Plain.{plain_kind};
ghost use Rattle.exi_tables.specs.Counts.{attribute_places as places_by_attribute, particle_places as places_by_particle, copies_within, copy_places as places_by_copy};

use exi_schema::{Declaration, Particle};

/// How many numbers of attributes may be passed in a kind.
pub(crate) fn attribute_places(declaration: &Declaration) -> usize
    ensures { result ≡ places_by_attribute (plain_kind declaration.now) }
{
    match declaration {
        Declaration::Simple(_) => 1,
        Declaration::Complex { attributes, .. } => attributes.len() + 1,
    }
}

/// How many numbers of particles may be passed in a kind. A simple kind counts as one particle.
pub(crate) fn particle_places(declaration: &Declaration) -> usize
    ensures { result ≡ places_by_particle (plain_kind declaration.now) }
{
    match declaration {
        Declaration::Simple(_) => 2,
        Declaration::Complex { particles, .. } => particles.len() + 1,
    }
}

/// How many numbers of copies may be passed before another copy of a particle.
fn copies_of(particle: &Particle) -> usize
    ensures { result ≡ copies_within particle.now.profile particle.now.most }
{
    match particle.most {
        Some(most) => most as usize,
        None => particle.profile as usize + 1,
    }
}

/// How many numbers of copies may be passed at a particle of a kind, or behind its last one.
pub(crate) fn copy_places(declaration: &Declaration, particle: u16) -> usize
    ensures { result ≡ places_by_copy (plain_kind declaration.now) particle }
{
    match declaration {
        Declaration::Simple(_) => 1,
        Declaration::Complex { particles, .. } => match particles.get(particle as usize) {
            Some(particle) => copies_of(particle),
            None => 1,
        },
    }
}
