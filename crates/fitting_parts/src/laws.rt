//! Laws of parts that hold what is declared (W3C XML Schema Part 1, Second Edition, 3.4.4 and 3.9.4).

ghost use Rattle.std.specs.Prelude.{◌≡◌, ℕ, true, List, Some, slice_get};
ghost use Rattle.exi_schema.specs.declared.tables.AttributeOf.{AttributeOf};
ghost use Rattle.exi_schema.specs.declared.tables.RootOf.{RootOf};
ghost use Rattle.exi_schema.specs.Plain.{PlainKind, containing, PlainParticle};
ghost use Rattle.exi_schema.specs.Schemas.{PlainSchema};
ghost use Rattle.exi_documents.specs.Trees.{Tree};
ghost use Rattle.kind_laws.specs.Kinds.{FitsSchema};
ghost use Rattle.kind_laws.specs.Texts.{HasFewTexts};
ghost use Rattle.message_parts.specs.Contents.{Inside, Given, Part, holding_with, root_of};
ghost use Rattle.fitting_parts.specs.Fitting.{HoldsTrees, FitsGiven, FitsParts};
ghost use Rattle.fitting_parts.specs.Counted.{has_few_texts};

/// What fits part by part holds what its kind says, and a root that holds that is a tree of the schema.
pub fn parts_hold_what_is_declared()
    ensures holds { (kinds : List PlainKind) (kind : ℕ) (attributes : List AttributeOf) (particles : List PlainParticle) (gs : List Given) (parts : List Part)
        → slice_get kinds kind ≡ Some (containing attributes particles) → FitsGiven kinds attributes gs → FitsParts kinds particles parts
        → HoldsTrees kinds kind (holding_with gs parts) }
    ensures root { (s : PlainSchema) (i : ℕ) (root : RootOf) (inside : Inside) → slice_get s.roots i ≡ Some root → HoldsTrees s.kinds root.kind inside
        → FitsSchema s (root_of root.name inside) }
{}

/// Where a schema passes the test, no tree of it has more texts than a document may enter.
pub fn trees_have_few_texts()
    ensures { (s : PlainSchema) (tree : Tree) → has_few_texts s ≡ true → FitsSchema s tree → HasFewTexts tree }
{}
