//! Each reply of a post can be spelled (ISO 15118-2:2014). The function does nothing: its contract is the law.
//!
//! Proved: `spells_replies`: each reply that a post gives under a plan within its rules can be spelled.
#![tactic(auto)]

ghost use Rattle.iso_word_laws.specs.Posts.{SpellsReplies, SpellsWaiting, SpellsTyped, SpellsTypedWaiting};

/// Each reply that a post gives under a plan within its rules can be spelled: that to a request, and that to PowerDelivery Start which
/// waited for the contactor. What they have of the session and of the request is bounded by the types of those, or by the reply's own.
pub fn spells_replies()
    ensures replies { SpellsReplies }
    ensures waiting { SpellsWaiting }
    ensures typed { SpellsTyped }
    ensures typed_waiting { SpellsTypedWaiting }
{}
