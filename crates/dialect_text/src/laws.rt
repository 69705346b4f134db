//! Laws of the texts of a dialect.

ghost use Rattle.std.specs.Prelude.{◌≡◌, ℕ, List};
ghost use Rattle.exi_schema.specs.Schemas.{PlainSchema};
ghost use Rattle.exi_documents.specs.Trees.{Event};
ghost use Rattle.dialect_text.specs.Dialect.{IsDialectText};

/// A text of the dialect says one list of events, with one document number.
pub fn one_list()
    ensures { (s : PlainSchema) (a b : List Event) (text : List ℕ) → IsDialectText s a text → IsDialectText s b text → a ≡ b }
{}
