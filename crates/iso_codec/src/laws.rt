//! Laws of the payloads of messages.

ghost use Rattle.std.specs.Prelude.{◌≡◌, ℕ, List};
ghost use Rattle.exi_documents.specs.declared.refusal.RefusalCause.{RefusalCause};
ghost use Rattle.document_laws.specs.Laws.{AreBytes};
ghost use Rattle.iso_message.specs.declared.message.IsoMessage.{IsoMessage};
ghost use Rattle.iso_message.specs.Documents.{iso_tree, IsIso, IsIsoRefused, IsIsoMessage, IsIsoEncoding, IsWithin};

/// A payload that spells a message has no refusal, and another one has one at most.
pub fn messages_and_refusals()
    ensures apart { (payload : List ℕ) (m : IsoMessage) (why : RefusalCause) (bit : ℕ) → IsIso m payload → IsIsoRefused payload why bit → ⊥ }
    ensures one_refusal { (payload : List ℕ) (why other : RefusalCause) (bit place : ℕ) → IsIsoRefused payload why bit → IsIsoRefused payload other place
        → (why ≡ other) × (bit ≡ place) }
{}

/// The messages that a payload spells are of one tree: they differ in nothing but where their texts lie.
pub fn one_tree()
    ensures { (payload : List ℕ) (m n : IsoMessage) → IsIso m payload → IsIso n payload → iso_tree m ≡ iso_tree n }
{}

/// Messages of one tree have one encoding.
pub fn one_encoding()
    ensures { (m n : IsoMessage) (payload other : List ℕ) → AreBytes payload → AreBytes other → iso_tree m ≡ iso_tree n
        → IsIsoEncoding m payload → IsIsoEncoding n other → payload ≡ other }
{}

/// What is written for a message spells it.
pub fn encodings_are_read()
    ensures { (m : IsoMessage) (payload : List ℕ) → IsIsoEncoding m payload → IsIso m payload }
{}

/// A message that was read can be written, and so can each whose parts hold what is declared, as many texts as it may have.
pub fn messages_are_written()
    ensures read { (m : IsoMessage) (payload : List ℕ) → IsIso m payload → IsIsoMessage m }
    ensures within { (m : IsoMessage) → IsWithin m → IsIsoMessage m }
{}
