//! What a record is made of: its attributes, if there are any, and its children.

ghost use Rattle.std.specs.Prelude.{◌≡◌, ◌∷◌, true, length, slice_get};
ghost use Rattle.exi_documents.specs.Trees.{Attribute};
ghost use Rattle.message_parts.specs.Contents.{mapped, told_maybe};
ghost use Rattle.message_parts.specs.Particles.{attribute_at, is_last_may, is_must, takes_attribute};

use crate::tuples::{Children, first_children};
use exi_documents::Refusal;
use exi_schema::Places;
use message_parts::{Contents, Descent, Simple, attribute, last_attribute};

/// A child alone, or none, `Elements<()>`.
#[derive(Drop)]
pub struct Elements<C>(pub C);

/// Two children alone, or two tuples of them, one behind the other.
#[derive(Drop)]
pub struct Elements2<A, B>(pub A, pub B);

/// Three of them.
#[derive(Drop)]
pub struct Elements3<A, B, C>(pub A, pub B, pub C);

/// Four of them.
#[derive(Drop)]
pub struct Elements4<A, B, C, D>(pub A, pub B, pub C, pub D);

/// An attribute that has to be there, and children.
#[derive(Drop)]
pub struct WithAttribute<T, C>(pub T, pub C);

/// An attribute that may be there, and children.
#[derive(Drop)]
pub struct WithOptionalAttribute<T, C>(pub Option<T>, pub C);

impl<'a, C: Children<'a>> Contents<'a> for Elements<C> {
    ghost stand = { λ ks attributes declared. (0 ≡ length attributes) × (C.behind 0 ≡ length declared) × C.stand ks declared 0 };

    ghost told = { λ attributes declared v before. C.told declared 0 v.0 before };

    #[inline(always)]
    fn read<P: Places>(descent: &mut Descent<'a, '_, P>) -> Result<Elements<C>, Refusal> {
        Ok(Elements(first_children(descent)?))
    }
}

impl<'a, A: Children<'a>, B: Children<'a>> Contents<'a> for Elements2<A, B> {
    ghost stand = { λ ks attributes declared. (0 ≡ length attributes) × (B.behind (A.behind 0) ≡ length declared)
        × A.stand ks declared 0 × B.stand ks declared (A.behind 0) };

    ghost told = { λ attributes declared v before. B.told declared (A.behind 0) v.1 (A.told declared 0 v.0 before) };

    #[inline(always)]
    fn read<P: Places>(descent: &mut Descent<'a, '_, P>) -> Result<Elements2<A, B>, Refusal> {
        let (a, b) = first_children(descent)?;
        Ok(Elements2(a, b))
    }
}

impl<'a, A: Children<'a>, B: Children<'a>, C: Children<'a>> Contents<'a> for Elements3<A, B, C> {
    ghost stand = { λ ks attributes declared. (0 ≡ length attributes) × (C.behind (B.behind (A.behind 0)) ≡ length declared)
        × A.stand ks declared 0 × B.stand ks declared (A.behind 0) × C.stand ks declared (B.behind (A.behind 0)) };

    ghost told = { λ attributes declared v before. C.told declared (B.behind (A.behind 0)) v.2
        (B.told declared (A.behind 0) v.1 (A.told declared 0 v.0 before)) };

    #[inline(always)]
    fn read<P: Places>(descent: &mut Descent<'a, '_, P>) -> Result<Elements3<A, B, C>, Refusal> {
        let (a, b, c) = first_children(descent)?;
        Ok(Elements3(a, b, c))
    }
}

impl<'a, A: Children<'a>, B: Children<'a>, C: Children<'a>, D: Children<'a>> Contents<'a>
    for Elements4<A, B, C, D> {
    ghost stand = { λ ks attributes declared. (0 ≡ length attributes) × (D.behind (C.behind (B.behind (A.behind 0))) ≡ length declared)
        × A.stand ks declared 0 × B.stand ks declared (A.behind 0) × C.stand ks declared (B.behind (A.behind 0))
        × D.stand ks declared (C.behind (B.behind (A.behind 0))) };

    ghost told = { λ attributes declared v before. D.told declared (C.behind (B.behind (A.behind 0))) v.3
        (C.told declared (B.behind (A.behind 0)) v.2 (B.told declared (A.behind 0) v.1 (A.told declared 0 v.0 before))) };

    #[inline(always)]
    fn read<P: Places>(descent: &mut Descent<'a, '_, P>) -> Result<Elements4<A, B, C, D>, Refusal> {
        let (a, b, c, d) = first_children(descent)?;
        Ok(Elements4(a, b, c, d))
    }
}

impl<'a, T: Simple<'a>, C: Children<'a>> Contents<'a> for WithAttribute<T, C> {
    ghost stand = { λ ks attributes declared. (1 ≡ length attributes) × (is_must (slice_get attributes 0) ≡ true) × (takes_attribute T.takes ks attributes 0 ≡ true)
        × (C.behind 0 ≡ length declared) × C.stand ks declared 0 };

    ghost told = { λ attributes declared v before. C.told declared 0 v.1 (Attribute (attribute_at attributes 0) (T.value v.0) ∷ before) };

    #[inline(always)]
    fn read<P: Places>(descent: &mut Descent<'a, '_, P>) -> Result<WithAttribute<T, C>, Refusal> {
        let value = attribute(descent)?;
        Ok(WithAttribute(value, first_children(descent)?))
    }
}

impl<'a, T: Simple<'a>, C: Children<'a>> Contents<'a> for WithOptionalAttribute<T, C> {
    ghost stand = { λ ks attributes declared. (is_last_may attributes 0 ≡ true) × (takes_attribute T.takes ks attributes 0 ≡ true)
        × (C.behind 0 ≡ length declared) × C.stand ks declared 0 };

    ghost told = { λ attributes declared v before. C.told declared 0 v.1 (told_maybe (attribute_at attributes 0) (mapped T.value v.0) before) };

    #[inline(always)]
    fn read<P: Places>(
        descent: &mut Descent<'a, '_, P>,
    ) -> Result<WithOptionalAttribute<T, C>, Refusal> {
        let value = last_attribute(descent)?;
        Ok(WithOptionalAttribute(value, C::read_children(descent)?))
    }
}
