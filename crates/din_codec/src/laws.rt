//! Laws of the payloads of messages.

ghost use Rattle.std.specs.Prelude.{◌≡◌, ℕ, List};
ghost use Rattle.exi_documents.specs.declared.refusal.RefusalCause.{RefusalCause};
ghost use Rattle.document_laws.specs.Laws.{AreBytes};
ghost use Rattle.din_message.specs.declared.message.DinMessage.{DinMessage};
ghost use Rattle.din_message.specs.Documents.{din_tree, IsDin, IsDinRefused, IsDinMessage, IsDinEncoding, IsWithin};

/// A payload that spells a message has no refusal, and another one has one at most.
pub fn messages_and_refusals()
    ensures apart { (payload : List ℕ) (m : DinMessage) (why : RefusalCause) (bit : ℕ) → IsDin m payload → IsDinRefused payload why bit → ⊥ }
    ensures one_refusal { (payload : List ℕ) (why other : RefusalCause) (bit place : ℕ) → IsDinRefused payload why bit → IsDinRefused payload other place
        → (why ≡ other) × (bit ≡ place) }
{}

/// The messages that a payload spells are of one tree: they differ in nothing but where their texts lie.
pub fn one_tree()
    ensures { (payload : List ℕ) (m n : DinMessage) → IsDin m payload → IsDin n payload → din_tree m ≡ din_tree n }
{}

/// Messages of one tree have one encoding.
pub fn one_encoding()
    ensures { (m n : DinMessage) (payload other : List ℕ) → AreBytes payload → AreBytes other → din_tree m ≡ din_tree n
        → IsDinEncoding m payload → IsDinEncoding n other → payload ≡ other }
{}

/// What is written for a message spells it.
pub fn encodings_are_read()
    ensures { (m : DinMessage) (payload : List ℕ) → IsDinEncoding m payload → IsDin m payload }
{}

/// A message that was read can be written, and so can each whose parts hold what is declared, as many texts as it may have.
pub fn messages_are_written()
    ensures read { (m : DinMessage) (payload : List ℕ) → IsDin m payload → IsDinMessage m }
    ensures within { (m : DinMessage) → IsWithin m → IsDinMessage m }
{}
