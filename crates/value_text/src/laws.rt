//! Laws of the texts of values.

ghost use Rattle.std.specs.Prelude.{◌≡◌, ℕ, List};
ghost use Rattle.exi_schema.specs.Schemas.{PlainSchema};
ghost use Rattle.exi_schema.specs.declared.tables.Datatype.{Datatype};
ghost use Rattle.exi_documents.specs.Trees.{Value};
ghost use Rattle.value_text.specs.declared.awaited.Awaited.{Awaited};
ghost use Rattle.value_text.specs.Fronts.{IsLongest};
ghost use Rattle.value_text.specs.Scanning.{IsAnyFormed, IsAnyAwaited};
ghost use Rattle.value_text.specs.ValueText.{IsFormed};

/// A text tells one value of a kind at most.
pub fn one_value()
    ensures { (s : PlainSchema) (kind : ℕ) (datatype : Datatype) (v w : Value) (text : List ℕ) → IsFormed s kind datatype v text → IsFormed s kind datatype w text → v ≡ w }
{}

/// Of a text one front is the longest that begins a value of a kind, and one the longest that begins a name that is awaited.
pub fn one_longest_front()
    ensures values { (s : PlainSchema) (kind : ℕ) (datatype : Datatype) (text a b : List ℕ) → IsLongest (IsAnyFormed s kind datatype) text a → IsLongest (IsAnyFormed s kind datatype) text b → a ≡ b }
    ensures names { (s : PlainSchema) (awaited : List Awaited) (text a b : List ℕ) → IsLongest (IsAnyAwaited s awaited) text a → IsLongest (IsAnyAwaited s awaited) text b → a ≡ b }
{}
