//! Laws of the dialects and of their texts.

ghost use Rattle.std.specs.Prelude.{◌≡◌, ℕ, true, List};
ghost use Rattle.tree_text.specs.Consistent.{are_consistent};
ghost use Rattle.exi_documents.specs.declared.refusal.RefusalCause.{RefusalCause};
ghost use Rattle.message_dialects.specs.declared.dialect.MessageDialect.{MessageDialect};
ghost use Rattle.message_dialects.specs.Dialects.{declarations};
ghost use Rattle.message_trees.specs.Texts.{IsPrinted, IsRefusedIn, IsScanned, IsUnscanned};

/// Inside one kind of a dialect the elements of one name are of one kind, and so are the attributes of one name.
pub fn dialects_are_consistent()
    ensures { (dialect : MessageDialect) → are_consistent (declarations dialect).kinds ≡ true }
{}

/// A payload has a text or a refusal, never both, and one of them at most.
pub fn texts_and_refusals()
    ensures apart { (dialect : MessageDialect) (payload text : List ℕ) (why : RefusalCause) (bit : ℕ) → IsPrinted dialect payload text
        → IsRefusedIn dialect payload why bit → ⊥ }
    ensures one_text { (dialect : MessageDialect) (payload a b : List ℕ) → IsPrinted dialect payload a → IsPrinted dialect payload b → a ≡ b }
    ensures one_refusal { (dialect : MessageDialect) (payload : List ℕ) (why other : RefusalCause) (bit place : ℕ) → IsRefusedIn dialect payload why bit
        → IsRefusedIn dialect payload other place → (why ≡ other) × (bit ≡ place) }
{}

/// A text has a payload or a fault, never both.
pub fn payloads_and_faults()
    ensures { (dialect : MessageDialect) (text payload : List ℕ) (place : ℕ) → IsScanned dialect text payload → IsUnscanned dialect text place → ⊥ }
{}

/// What is printed of a payload that is written for a text is that text.
pub fn scanned_texts_are_printed()
    ensures { (dialect : MessageDialect) (text payload : List ℕ) → IsScanned dialect text payload → IsPrinted dialect payload text }
{}
