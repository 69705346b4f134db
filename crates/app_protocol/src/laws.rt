//! Laws of the payloads of the negotiation.

ghost use Rattle.std.specs.Prelude.{◌≡◌, ℕ, ◌≤◌, List, length, Option};
ghost use Rattle.exi_documents.specs.declared.refusal.RefusalCause.{RefusalCause};
ghost use Rattle.app_documents.specs.Trees.{Message, Response};
ghost use Rattle.document_laws.specs.Laws.{AreBytes};
ghost use Rattle.app_protocol.specs.Documents.{IsApp, IsAppRefused, IsAppEncoding, PassesBytes};
ghost use Rattle.app_protocol.specs.Scanning.{IsAppScanned, IsAppUnscanned};

/// A payload that spells a message has no refusal, and another one has one at most.
pub fn messages_and_refusals()
    ensures apart { (payload : List ℕ) (m : Message) (why : RefusalCause) (bit : ℕ) → IsApp m payload → IsAppRefused payload why bit → ⊥ }
    ensures one_refusal { (payload : List ℕ) (why other : RefusalCause) (bit place : ℕ) → IsAppRefused payload why bit → IsAppRefused payload other place → (why ≡ other) × (bit ≡ place) }
{}

/// A message has one encoding.
pub fn one_encoding()
    ensures { (m : Message) (payload other : List ℕ) → AreBytes payload → AreBytes other → IsAppEncoding m payload → IsAppEncoding m other → payload ≡ other }
{}

/// The encoding of a response has at most four bytes, so a room of four is never too small.
pub fn responses_fit_four_bytes()
    ensures bytes { (code : ℕ) (schema : Option ℕ) (payload : List ℕ) → IsAppEncoding (Response code schema) payload → length payload ≤ 4 }
    ensures room { (code : ℕ) (schema : Option ℕ) → PassesBytes (Response code schema) 4 → ⊥ }
{}

/// A text that is at fault has no payload.
pub fn payloads_and_faults()
    ensures { (text payload : List ℕ) (place : ℕ) → IsAppScanned text payload → IsAppUnscanned text place → ⊥ }
{}
