//! The elements that have started and not ended.

ghost use Rattle.std.specs.Prelude.{◌≡◌, ◌<◌, List, [], ◌∷◌, length, MatchOption};

use arrayvec::ArrayVec;
use std::marker::Model;

/// What is in an element so far.
#[derive(Clone, Copy)]
pub(crate) enum Filling {
    Nothing,
    Attributes,
    Elements,
    Value,
}

/// An element that has started: the number of its kind, and what is in it.
#[derive(Clone, Copy)]
pub(crate) struct OpenElement {
    pub(crate) kind: u16,
    pub(crate) filling: Filling,
}

impl Default for OpenElement {
    fn default() -> OpenElement {
        OpenElement {
            kind: 0,
            filling: Filling::Nothing,
        }
    }
}

/// Up to 16 elements, each inside the one before it. Contracts see them with the innermost first.
#[derive(Drop)]
pub(crate) struct OpenElements {
    outermost_first: ArrayVec<OpenElement, 16>,
}

impl Model for OpenElements {
    ghost use Rattle.std.specs.Prelude.{List, reverse};
    ghost use Rattle.dialect_text.specs.declared.elements.OpenElement.{OpenElement};

    ghost Value = { List OpenElement };

    ghost view = { λ o. reverse o.outermost_first.items };
}

impl OpenElements {
    /// No element.
    pub(crate) fn new() -> OpenElements
        ensures { result ≡ [] }
    {
        OpenElements {
            outermost_first: ArrayVec::new(),
        }
    }

    /// One element, which has started.
    pub(crate) fn alone(kind: u16) -> OpenElements
        ensures { result ≡ record { kind = kind; filling = Filling.Nothing } ∷ [] }
    {
        let mut elements = OpenElements::new();
        elements.push(kind);
        elements
    }

    /// The innermost element.
    pub(crate) fn innermost(&self) -> Option<OpenElement>
        ensures { MatchOption result (self.now ≡ []) (λ top. (above : List _) × (self.now ≡ top ∷ above)) }
    {
        self.outermost_first.last().copied()
    }

    /// This is in the innermost element now.
    pub(crate) fn fill(&mut self, filling: Filling)
        ensures { (top : _) (above : List _) → self.old ≡ top ∷ above → self.new ≡ record { kind = top.kind; filling = filling } ∷ above }
    {
        if let Some(top) = self.outermost_first.last_mut() {
            top.filling = filling;
        }
    }

    /// An element starts.
    pub(crate) fn push(&mut self, kind: u16)
        requires { length self.old < 16 }
        ensures { self.new ≡ record { kind = kind; filling = Filling.Nothing } ∷ self.old }
    {
        self.outermost_first.push(OpenElement {
            kind,
            filling: Filling::Nothing,
        });
    }

    /// The innermost element ends.
    pub(crate) fn pop(&mut self)
        ensures { (top : _) (above : List _) → self.old ≡ top ∷ above → self.new ≡ above }
    {
        let _ = self.outermost_first.pop();
    }
}
