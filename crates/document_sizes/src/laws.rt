//! Laws of the sizes of documents (own).

ghost use Rattle.std.specs.Prelude.{◌≡◌, ℕ, true, ◌+◌, ◌*◌, ◌≤◌, Bool, List, length};
ghost use Rattle.exi_schema.specs.Schemas.{PlainSchema};
ghost use Rattle.exi_documents.specs.Documents.{SpellsDocument, IsEncoding};
ghost use Rattle.exi_documents.specs.Trees.{Tree};
ghost use Rattle.exi_documents.specs.Values.{WritesValue};
ghost use Rattle.message_parts.specs.Contents.{Inside, Given, Part, holding, holding_with, root_of};
ghost use Rattle.message_parts.specs.Documents.{PassesBytes};
ghost use Rattle.document_sizes.specs.Sizes.{has_narrow_codes, tree_weight, document_weight, inside_weight, given_weight, parts_weight};

/// Where no code of a schema has more than `width` bits, the bits that are written for a document are no more than its weight, which so
/// many bytes as hold the weight are never too few for. Less than a byte fills the last one.
pub fn documents_are_small()
    ensures bits { (width : ℕ) (s : PlainSchema) (number : ℕ) (tree : Tree) (bits : List Bool) → has_narrow_codes width s ≡ true
        → SpellsDocument WritesValue s number tree bits → length bits ≤ document_weight width s tree }
    ensures bytes { (width : ℕ) (s : PlainSchema) (tree : Tree) (payload : List ℕ) → has_narrow_codes width s ≡ true
        → IsEncoding s tree payload → 8 * length payload ≤ 7 + document_weight width s tree }
    ensures room { (width : ℕ) (s : PlainSchema) (number : ℕ) (tree : Tree) (bytes : ℕ) → has_narrow_codes width s ≡ true
        → document_weight width s tree ≤ 8 * bytes → PassesBytes s number tree bytes → ⊥ }
{}

/// The weight of an element is the sum of those of its parts, and that of a tree the weight of its root.
pub fn parts_add_up()
    ensures held { (width : ℕ) (gs : List Given) (parts : List Part)
        → inside_weight width (holding_with gs parts) ≡ given_weight width gs + parts_weight width parts }
    ensures plain { (width : ℕ) (parts : List Part) → inside_weight width (holding parts) ≡ parts_weight width parts }
    ensures root { (width name : ℕ) (inside : Inside) → tree_weight width (root_of name inside) ≡ inside_weight width inside }
{}
