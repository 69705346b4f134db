//! A schema as plain tables.

/// The datatype of a simple kind (W3C EXI 1.0, Second Edition, 7.1).
#[derive(Clone, Copy, PartialEq, Eq)]
pub enum Datatype {
    /// 7.1.2 Boolean.
    Bool,
    /// 7.2 Enumerations: the ordinal of one of `count` values.
    Named { count: u32 },
    /// 7.1.9 n-bit Unsigned Integer: one of `count` integers from `least` on.
    Bounded { least: i64, count: u32 },
    /// 7.1.6 Unsigned Integer, at most `most`.
    Unsigned { most: u64 },
    /// 7.1.5 Integer, from `least` to `most`.
    Signed { least: i64, most: i64 },
    /// 7.1.1 Binary, of at most `most` bytes.
    Binary { most: u32 },
    /// 7.1.10 String, of at most `most` code points.
    Text { most: u32 },
}

/// Whether an element may stand where its particle stands.
#[derive(Clone, Copy, PartialEq, Eq)]
pub enum MemberStanding {
    /// It may.
    Taken,
    /// It is the abstract head of a substitution group.
    Abstract,
    /// It is left out of the profile (own).
    OutOfProfile,
}

/// One element of a particle.
#[derive(Clone, Copy)]
pub struct Member {
    /// The number of its name.
    pub name: u16,
    /// The number of its kind.
    pub kind: u16,
    /// Whether it may stand there.
    pub standing: MemberStanding,
}

/// A part of a complex kind: from `least` to `most` copies, without `most` any number, each being one of the members.
#[derive(Clone, Copy)]
pub struct Particle<'s> {
    /// The elements of which a copy is one.
    pub members: &'s [Member],
    /// The least number of copies.
    pub least: u32,
    /// The greatest number of copies, if there is one.
    pub most: Option<u32>,
    /// How many copies are accepted (own).
    pub profile: u32,
}

/// An attribute of a complex kind.
#[derive(Clone, Copy)]
pub struct AttributeOf {
    /// The number of its name.
    pub name: u16,
    /// The number of its kind, which is simple.
    pub kind: u16,
    /// Whether it has to be there.
    pub required: bool,
}

/// The declaration of a kind of element or attribute.
#[derive(Clone, Copy)]
pub enum Declaration<'s> {
    /// A value.
    Simple(Datatype),
    /// Attributes in order of name, then elements.
    Complex {
        attributes: &'s [AttributeOf],
        particles: &'s [Particle<'s>],
    },
}

/// An element that may be the root of a document.
#[derive(Clone, Copy)]
pub struct RootOf {
    /// Its document number.
    pub number: u32,
    /// The number of its name.
    pub name: u16,
    /// The number of its kind.
    pub kind: u16,
}
