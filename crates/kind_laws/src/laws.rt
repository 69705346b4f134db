//! Laws of the trees of a schema (W3C XML Schema Part 1, Second Edition, 3.4.4 and 3.9.4).

ghost use Rattle.std.specs.Prelude.{◌≡◌, ◌↔◌, ℕ, Bool, true, List};
ghost use Rattle.exi_schema.specs.Schemas.{PlainSchema};
ghost use Rattle.exi_documents.specs.declared.refusal.RefusalCause.{RefusalCause};
ghost use Rattle.exi_documents.specs.Trees.{Tree, Event, alone};
ghost use Rattle.exi_documents.specs.Values.{SpellsValue};
ghost use Rattle.exi_documents.specs.Grammar.{State, Reaches};
ghost use Rattle.exi_documents.specs.Refusals.{IsRefused};
ghost use Rattle.kind_laws.specs.Kinds.{FitsSchema};
ghost use Rattle.kind_laws.specs.Order.{is_ordered, AttributesAscend, GroupsAscend};
ghost use Rattle.kind_laws.specs.Texts.{HasFewTexts};
ghost use Rattle.kind_laws.specs.Laws.{HasEncoding, HasDocument, IsToldIn, IsOfSchema, BeginsDocument};

/// Each tree that holds what its schema says, of at most 8,192 different texts, has an encoding.
pub fn each_tree_is_encoded()
    ensures { (s : PlainSchema) (tree : Tree) → FitsSchema s tree → HasFewTexts tree → HasEncoding s tree }
{}

/// The trees that have an encoding, those that a payload spells, and those that the grammar tells are the same: those that hold what the
/// schema says, of at most 8,192 different texts.
pub fn kinds_and_documents()
    ensures encoded { (s : PlainSchema) (tree : Tree) → HasEncoding s tree ↔ IsOfSchema s tree }
    ensures spelled { (s : PlainSchema) (tree : Tree) → HasDocument s tree ↔ IsOfSchema s tree }
    ensures told { (s : PlainSchema) (tree : Tree) → IsToldIn s tree ↔ IsOfSchema s tree }
{}

/// Each state that bits lead to goes on to the end of a document. So the bits before the event at which a payload is refused begin one.
pub fn each_state_is_completed()
    ensures reached { (s : PlainSchema) (events : List Event) (bits : List Bool) (state : State)
        → Reaches SpellsValue s events bits state → BeginsDocument s events bits }
    ensures refused { (s : PlainSchema) (payload : List ℕ) (why : RefusalCause) (bit : ℕ)
        → (r : IsRefused s payload why bit) → BeginsDocument s r.events r.front }
{}

/// Where a schema passes the test of order, the attributes of each element stand in order of name, and so do the members of each
/// substitution group with an abstract head.
pub fn names_ascend()
    ensures attributes { (s : PlainSchema) (tree : Tree) → is_ordered s ≡ true → FitsSchema s tree → AttributesAscend s.names (alone tree) }
    ensures groups { (s : PlainSchema) → is_ordered s ≡ true → GroupsAscend s }
{}
