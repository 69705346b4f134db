//! Several children, one behind the other.

ghost use Rattle.std.specs.Prelude.{◌≡◌, ℕ, List, IfOk, IfErr, length};
ghost use Rattle.exi_documents.specs.Trees.{Event as TreeEvent};
ghost use Rattle.exi_schema.specs.declared.tables.AttributeOf.{AttributeOf};
ghost use Rattle.exi_schema.specs.Plain.{PlainKind, PlainParticle};
ghost use Rattle.message_parts.specs.Reading.{Frame, seen_of, IsOpen, Reads, IsRefusal, StartsAt};

use exi_documents::Refusal;
use exi_schema::Places;
use message_parts::{Descent, first_child};

/// Some children of an element, one behind the other.
pub trait Children<'a>: Drop {
    /// Whether they are declared from this particle on.
    ghost stand: { List PlainKind → List PlainParticle → ℕ → Type 0 };

    /// The particle behind them.
    ghost behind: { ℕ → ℕ };

    /// What is told with them, the newest first.
    ghost told: { List PlainParticle → ℕ → Self → List TreeEvent → List TreeEvent };

    /// Reads them, up to the start of the next child.
    fn read_children<P: Places>(descent: &mut Descent<'a, '_, P>) -> Result<Self, Refusal>
        requires open { IsOpen P.schema descent.old }
        ensures open { IsOpen P.schema descent.new }
        ensures table { descent.new.reader.table.ghost_name ≡ descent.old.reader.table.ghost_name }
        ensures places { descent.new.reader.places.now ≡ descent.old.reader.places.now }
        ensures payload { descent.new.reader.reader.bits ≡ descent.old.reader.reader.bits }
        ensures refused { IfErr result (λ r. IsRefusal (seen_of P.schema descent.old) r) }
        ensures read { (ks : List PlainKind) (F : Frame) (attributes : List AttributeOf) (declared : List PlainParticle) (at : ℕ) (before : List TreeEvent)
            → Reads ks F attributes declared at before (seen_of P.schema descent.old) → stand ks declared at
            → IfOk result (λ v. Reads ks F attributes declared (behind at) (told declared at v before) (seen_of P.schema descent.new)) };
}

impl<'a, A: Children<'a>, B: Children<'a>> Children<'a> for (A, B) {
    ghost stand = { λ ks declared at. A.stand ks declared at × B.stand ks declared (A.behind at) };

    ghost behind = { λ at. B.behind (A.behind at) };

    ghost told = { λ declared at v before. B.told declared (A.behind at) v.1 (A.told declared at v.0 before) };

    #[inline(always)]
    fn read_children<P: Places>(descent: &mut Descent<'a, '_, P>) -> Result<(A, B), Refusal> {
        let a = A::read_children(descent)?;
        let b = B::read_children(descent)?;
        Ok((a, b))
    }
}

impl<'a, A: Children<'a>, B: Children<'a>, C: Children<'a>> Children<'a> for (A, B, C) {
    ghost stand = { λ ks declared at. A.stand ks declared at × B.stand ks declared (A.behind at) × C.stand ks declared (B.behind (A.behind at)) };

    ghost behind = { λ at. C.behind (B.behind (A.behind at)) };

    ghost told = { λ declared at v before. C.told declared (B.behind (A.behind at)) v.2 (B.told declared (A.behind at) v.1 (A.told declared at v.0 before)) };

    #[inline(always)]
    fn read_children<P: Places>(descent: &mut Descent<'a, '_, P>) -> Result<(A, B, C), Refusal> {
        let a = A::read_children(descent)?;
        let b = B::read_children(descent)?;
        let c = C::read_children(descent)?;
        Ok((a, b, c))
    }
}

impl<'a, A: Children<'a>, B: Children<'a>, C: Children<'a>, D: Children<'a>> Children<'a>
    for (A, B, C, D) {
    ghost stand = { λ ks declared at. A.stand ks declared at × B.stand ks declared (A.behind at) × C.stand ks declared (B.behind (A.behind at))
        × D.stand ks declared (C.behind (B.behind (A.behind at))) };

    ghost behind = { λ at. D.behind (C.behind (B.behind (A.behind at))) };

    ghost told = { λ declared at v before. D.told declared (C.behind (B.behind (A.behind at))) v.3
        (C.told declared (B.behind (A.behind at)) v.2 (B.told declared (A.behind at) v.1 (A.told declared at v.0 before))) };

    #[inline(always)]
    fn read_children<P: Places>(descent: &mut Descent<'a, '_, P>) -> Result<(A, B, C, D), Refusal> {
        let a = A::read_children(descent)?;
        let b = B::read_children(descent)?;
        let c = C::read_children(descent)?;
        let d = D::read_children(descent)?;
        Ok((a, b, c, d))
    }
}

/// The first children of an element, behind its last attribute that has to be there.
#[inline(always)]
pub(crate) fn first_children<'a, T: Children<'a>, P: Places>(
    descent: &mut Descent<'a, '_, P>,
) -> Result<T, Refusal>
    requires open { IsOpen P.schema descent.old }
    ensures open { IsOpen P.schema descent.new }
    ensures table { descent.new.reader.table.ghost_name ≡ descent.old.reader.table.ghost_name }
    ensures places { descent.new.reader.places.now ≡ descent.old.reader.places.now }
    ensures payload { descent.new.reader.reader.bits ≡ descent.old.reader.reader.bits }
    ensures refused { IfErr result (λ r. IsRefusal (seen_of P.schema descent.old) r) }
    ensures read { (ks : List PlainKind) (F : Frame) (attributes : List AttributeOf) (declared : List PlainParticle) (before : List TreeEvent)
        → StartsAt ks F attributes declared (length attributes) before (seen_of P.schema descent.old) → T.stand ks declared 0
        → IfOk result (λ v. Reads ks F attributes declared (T.behind 0) (T.told declared 0 v before) (seen_of P.schema descent.new)) }
{
    first_child(descent)?;
    T::read_children(descent)
}
