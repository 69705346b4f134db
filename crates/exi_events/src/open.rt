//! The elements that have started and not ended.

ghost use Rattle.std.specs.Prelude.{◌≡◌, ◌<◌, List, [], ◌∷◌, length, MatchOption};
ghost use Rattle.exi_events.specs.Inside.{GoesTo, HasTop};

use arrayvec::ArrayVec;
use exi_schema::Place;
use std::marker::Model;

/// An element that has started: the number of its name, and the place reached in it.
#[derive(Clone, Copy)]
pub(crate) struct OpenElement {
    pub(crate) name: u16,
    pub(crate) place: Place,
}

impl Default for OpenElement {
    fn default() -> OpenElement {
        OpenElement {
            name: 0,
            place: Place::first(0),
        }
    }
}

/// Up to 16 elements, each inside the one before it. Contracts see them with the innermost first.
#[derive(Drop)]
pub(crate) struct OpenElements {
    outermost_first: ArrayVec<OpenElement, 16>,
}

impl Model for OpenElements {
    ghost use Rattle.std.specs.Prelude.{List, map, reverse};
    ghost use Rattle.exi_writing.specs.Grammar.{Opened};
    ghost use Rattle.exi_events.specs.Open.{opened_of};

    ghost Value = { List Opened };

    ghost view = { λ o. map opened_of (reverse o.outermost_first.items) };
}

impl OpenElements {
    /// No element.
    pub(crate) fn new() -> OpenElements
        ensures { result ≡ [] }
    {
        OpenElements {
            outermost_first: ArrayVec::new(),
        }
    }

    /// The innermost element.
    pub(crate) fn innermost(&self) -> Option<OpenElement>
        ensures { MatchOption result (self.now ≡ []) (HasTop self.now) }
    {
        self.outermost_first.last().copied()
    }

    /// The innermost element has reached this place.
    pub(crate) fn goes_to(&mut self, place: Place)
        ensures { GoesTo self.old place self.new }
    {
        if let Some(top) = self.outermost_first.last_mut() {
            top.place = place;
        }
    }

    /// An element starts.
    pub(crate) fn push(&mut self, name: u16, place: Place)
        requires { length self.old < 16 }
        ensures { self.new ≡ record { name = name; place = place } ∷ self.old }
    {
        self.outermost_first.push(OpenElement { name, place });
    }

    /// The innermost element ends.
    pub(crate) fn pop(&mut self)
        ensures { (top : _) (above : List _) → self.old ≡ top ∷ above → self.new ≡ above }
    {
        let _ = self.outermost_first.pop();
    }
}
