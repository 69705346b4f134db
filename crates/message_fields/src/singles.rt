//! One child.

ghost use Rattle.std.specs.Prelude.{◌≡◌, suc, true, Some, slice_get, map};
ghost use Rattle.exi_schema.specs.Plain.{containing};
ghost use Rattle.message_parts.specs.Contents.{Of, holding_with, mapped, told_choice, told_each, told_one, told_perhaps};
ghost use Rattle.message_parts.specs.Particles.{alternatives_at, is_left_out, is_once_at, is_optional_at, is_repeated_at, is_required, is_single, kind_at, name_at, takes_at};

use crate::tuples::Children;
use arrayvec::ArrayVec;
use exi_documents::Refusal;
use exi_schema::Places;
use message_parts::{
    Choice, Descent, Group, ReadRecord, Simple, choice, left_out, optional, optional_choice,
    optional_value, records, required, value, values,
};

/// An element with attributes and children that has to be there.
#[derive(Drop)]
pub struct Required<T>(pub T);

/// One of a name that may be there.
#[derive(Drop)]
pub struct Optional<T, const NAME: u16>(pub Option<T>);

/// A value that has to be there.
#[derive(Drop)]
pub struct RequiredValue<T>(pub T);

/// One of a name that may be there.
#[derive(Drop)]
pub struct OptionalValue<T, const NAME: u16>(pub Option<T>);

/// One of several elements that has to be there.
#[derive(Drop)]
pub struct OneOf<T>(pub T);

/// One of several elements that may be there.
#[derive(Drop)]
pub struct AtMostOneOf<T>(pub Option<T>);

/// Elements of a name with attributes and children, at least one and at most so many.
#[derive(Drop)]
pub struct Several<T, const MOST: usize, const NAME: u16>(pub ArrayVec<T, MOST>);

/// Values of a name, at least one and at most so many.
#[derive(Drop)]
pub struct SeveralValues<T, const MOST: usize, const NAME: u16>(pub ArrayVec<T, MOST>);

/// A part of which the profile leaves out all elements.
#[derive(Drop)]
pub struct LeftOut;

impl<'a, T: ReadRecord<'a>> Children<'a> for Required<T> {
    ghost stand = { λ ks declared at. (ks ≡ T.kinds) × (is_once_at declared at ≡ true) × (slice_get T.kinds (kind_at declared at) ≡ Some (containing T.attributes T.particles)) };

    ghost behind = { λ at. suc at };

    ghost told = { λ declared at v before. told_one (name_at declared at) (holding_with (T.given v.0) (T.parts v.0)) before };

    #[inline(always)]
    fn read_children<P: Places>(descent: &mut Descent<'a, '_, P>) -> Result<Required<T>, Refusal> {
        Ok(Required(required(descent)?))
    }
}

impl<'a, T: ReadRecord<'a>, const NAME: u16> Children<'a> for Optional<T, NAME> {
    ghost stand = { λ ks declared at. (ks ≡ T.kinds) × (is_optional_at declared at ≡ true) × (NAME ≡ name_at declared at)
        × (slice_get T.kinds (kind_at declared at) ≡ Some (containing T.attributes T.particles)) };

    ghost behind = { λ at. suc at };

    ghost told = { λ declared at v before. told_perhaps NAME (mapped (λ x. holding_with (T.given x) (T.parts x)) v.0) before };

    #[inline(always)]
    fn read_children<P: Places>(
        descent: &mut Descent<'a, '_, P>,
    ) -> Result<Optional<T, NAME>, Refusal> {
        Ok(Optional(optional(descent, NAME)?))
    }
}

impl<'a, T: Simple<'a>> Children<'a> for RequiredValue<T> {
    ghost stand = { λ ks declared at. (is_once_at declared at ≡ true) × (takes_at T.takes ks declared at ≡ true) };

    ghost behind = { λ at. suc at };

    ghost told = { λ declared at v before. told_one (name_at declared at) (Of (T.value v.0)) before };

    #[inline(always)]
    fn read_children<P: Places>(
        descent: &mut Descent<'a, '_, P>,
    ) -> Result<RequiredValue<T>, Refusal> {
        Ok(RequiredValue(value(descent)?))
    }
}

impl<'a, T: Simple<'a>, const NAME: u16> Children<'a> for OptionalValue<T, NAME> {
    ghost stand = { λ ks declared at. (is_optional_at declared at ≡ true) × (NAME ≡ name_at declared at) × (takes_at T.takes ks declared at ≡ true) };

    ghost behind = { λ at. suc at };

    ghost told = { λ declared at v before. told_perhaps NAME (mapped (λ x. Of (T.value x)) v.0) before };

    #[inline(always)]
    fn read_children<P: Places>(
        descent: &mut Descent<'a, '_, P>,
    ) -> Result<OptionalValue<T, NAME>, Refusal> {
        Ok(OptionalValue(optional_value(descent, NAME)?))
    }
}

impl<'a, T: Choice<'a>> Children<'a> for OneOf<T> {
    ghost stand = { λ ks declared at. (ks ≡ T.kinds) × (is_required (slice_get declared at) ≡ true) × (alternatives_at declared at ≡ T.members) };

    ghost behind = { λ at. suc at };

    ghost told = { λ declared at v before. told_one (T.name v.0) (T.inside v.0) before };

    #[inline(always)]
    fn read_children<P: Places>(descent: &mut Descent<'a, '_, P>) -> Result<OneOf<T>, Refusal> {
        Ok(OneOf(choice(descent)?))
    }
}

impl<'a, T: Group<'a>> Children<'a> for AtMostOneOf<T> {
    ghost stand = { λ ks declared at. (ks ≡ T.kinds) × (is_single (slice_get declared at) ≡ true) × (alternatives_at declared at ≡ T.members) };

    ghost behind = { λ at. suc at };

    ghost told = { λ declared at v before. told_choice (mapped (λ x. (T.name x, T.inside x)) v.0) before };

    #[inline(always)]
    fn read_children<P: Places>(
        descent: &mut Descent<'a, '_, P>,
    ) -> Result<AtMostOneOf<T>, Refusal> {
        Ok(AtMostOneOf(optional_choice(descent)?))
    }
}

impl<'a, T: ReadRecord<'a> + Default, const MOST: usize, const NAME: u16> Children<'a>
    for Several<T, MOST, NAME> {
    ghost stand = { λ ks declared at. (ks ≡ T.kinds) × (is_repeated_at declared at MOST ≡ true) × (NAME ≡ name_at declared at)
        × (slice_get T.kinds (kind_at declared at) ≡ Some (containing T.attributes T.particles)) };

    ghost behind = { λ at. suc at };

    ghost told = { λ declared at v before. told_each NAME (map (λ x. holding_with (T.given x) (T.parts x)) v.0.items) before };

    #[inline(always)]
    fn read_children<P: Places>(
        descent: &mut Descent<'a, '_, P>,
    ) -> Result<Several<T, MOST, NAME>, Refusal> {
        Ok(Several(records(descent, NAME)?))
    }
}

impl<'a, T: Simple<'a> + Default, const MOST: usize, const NAME: u16> Children<'a>
    for SeveralValues<T, MOST, NAME> {
    ghost stand = { λ ks declared at. (is_repeated_at declared at MOST ≡ true) × (NAME ≡ name_at declared at) × (takes_at T.takes ks declared at ≡ true) };

    ghost behind = { λ at. suc at };

    ghost told = { λ declared at v before. told_each NAME (map (λ x. Of (T.value x)) v.0.items) before };

    #[inline(always)]
    fn read_children<P: Places>(
        descent: &mut Descent<'a, '_, P>,
    ) -> Result<SeveralValues<T, MOST, NAME>, Refusal> {
        Ok(SeveralValues(values(descent, NAME)?))
    }
}

impl<'a> Children<'a> for LeftOut {
    ghost stand = { λ ks declared at. is_left_out (slice_get declared at) ≡ true };

    ghost behind = { λ at. suc at };

    ghost told = { λ declared at v before. before };

    #[inline(always)]
    fn read_children<P: Places>(descent: &mut Descent<'a, '_, P>) -> Result<LeftOut, Refusal> {
        left_out(descent);
        Ok(LeftOut)
    }
}

impl<'a> Children<'a> for () {
    ghost stand = { λ ks declared at. Unit {0} };

    ghost behind = { λ at. at };

    ghost told = { λ declared at v before. before };

    #[inline(always)]
    fn read_children<P: Places>(_descent: &mut Descent<'a, '_, P>) -> Result<(), Refusal> {
        Ok(())
    }
}
