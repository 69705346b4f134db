//! What a kind declares and takes.

ghost use Rattle.std.specs.Prelude.{◌≡◌, ◌<◌, length};
ghost use Rattle.exi_schema.specs.Plain.{plain_particles};
ghost use Rattle.exi_schema.specs.Told.{schema_of};
ghost use Rattle.dialect_text.specs.Dialect.{attribute_named, member_named, element_named, mark};

use exi_schema::{AttributeOf, Declaration, Member, MemberStanding, Particle, Schema};

/// The kind of the first of these attributes that has a name.
pub(crate) fn kind_of_attribute(attributes: &[AttributeOf], name: u16) -> Option<u16>
    ensures { result ≡ attribute_named attributes.now name }
{
    for attribute in attributes {
        if attribute.name == name {
            return Some(attribute.kind);
        }
    }
    None
}

/// The kind of the first of these members that has a name and may stand there.
fn kind_of_member(members: &[Member], name: u16) -> Option<u16>
    ensures { result ≡ member_named members.now name }
{
    for member in members {
        if member.standing == MemberStanding::Taken && member.name == name {
            return Some(member.kind);
        }
    }
    None
}

/// The kind of the first element of these particles that has a name and may stand there.
pub(crate) fn kind_of_element(particles: &[Particle], name: u16) -> Option<u16>
    ensures { result ≡ element_named (plain_particles particles.now) name }
{
    for particle in particles {
        if let Some(kind) = kind_of_member(particle.members, name) {
            return Some(kind);
        }
    }
    None
}

/// The character behind the name of an element of a kind.
pub(crate) fn mark_behind(schema: &Schema, kind: u16) -> char
    requires { kind < length (schema_of schema.now).kinds }
    ensures { result ≡ mark (schema_of schema.now) kind }
{
    match &schema.kinds[kind as usize] {
        Declaration::Simple(_) => '=',
        Declaration::Complex { .. } => '{',
    }
}
