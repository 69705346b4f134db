//! Laws of the documents of a schema (W3C EXI 1.0, Second Edition).

ghost use Rattle.std.specs.Prelude.{◌≡◌, ℕ, ◌≤◌, Bool, List, length};
ghost use Rattle.exi_schema.specs.Schemas.{PlainSchema};
ghost use Rattle.exi_schema.specs.declared.places.Place.{Place};
ghost use Rattle.exi_schema.specs.declared.tables.Datatype.{Datatype};
ghost use Rattle.exi_schema.specs.Offers.{IsPlace};
ghost use Rattle.exi_documents.specs.Values.{Entries, most_entries, SpellsValue, WritesValue};
ghost use Rattle.exi_documents.specs.Trees.{Tree, Value, Event};
ghost use Rattle.exi_documents.specs.Documents.{SpellsDocument, IsDocument, IsEncoding};
ghost use Rattle.exi_documents.specs.Grammar.{State, Moves};
ghost use Rattle.document_laws.specs.Laws.{TellTrees, OffersOnce, IsValueExact, IsStanding, IsState, GoesOn, IsEventExact, IsPrefixFree, IsDecided, IsInRange, IsSpelled, WritesOnce, IsOneEncoding};

/// The events up to the end of a document are those of the tree that its bits spell, in any spelling and as it is written.
pub fn events_tell_trees()
    ensures spelled { (s : PlainSchema) → TellTrees SpellsValue s }
    ensures written { (s : PlainSchema) → TellTrees WritesValue s }
{}

/// At a place of a schema no two elements and no two attributes of one name are offered.
pub fn distinct_offers()
    ensures { (s : PlainSchema) (here : Place) → IsPlace s.kinds here → OffersOnce s.kinds here }
{}

/// Each list of bits begins with one spelling of one value of a datatype, or has one refusal, at one of its bits.
pub fn each_value()
    ensures { (d : Datatype) (entries : Entries) (name : ℕ) → length entries ≤ most_entries → IsValueExact d entries name }
{}

/// At a place of the schema before the end of the root, each list of bits begins with one spelling of one event, which leads to one
/// state of the schema, or has one refusal.
pub fn each_event()
    ensures exact { (s : PlainSchema) (state : State) → IsState s state → GoesOn state.standing → IsEventExact s state }
    ensures kept { (s : PlainSchema) (old new : State) (event : Event) (bits : List Bool) → IsState s old → Moves SpellsValue s old event bits new → IsState s new }
{}

/// Where the bits of one document begin those of another, both are the same bits, of the same document number and tree.
pub fn prefix_free()
    ensures { (s : PlainSchema) → IsPrefixFree s }
{}

/// Each payload spells one tree, or has one refusal, at one of its bits, and not both.
pub fn each_payload()
    ensures { (s : PlainSchema) (payload : List ℕ) → IsDecided s payload }
{}

/// What is written spells its value, event or document, and nothing else is written for it. The bounds of the datatypes are numbers of
/// their types.
pub fn encodings()
    ensures value { (d : Datatype) (entries : Entries) (name : ℕ) (v : Value) → IsInRange d → IsSpelled d entries name v }
    ensures value_once { WritesOnce WritesValue }
    ensures event { (s : PlainSchema) (old new : State) (event : Event) (bits : List Bool) → Moves WritesValue s old event bits new → Moves SpellsValue s old event bits new }
    ensures document { (s : PlainSchema) (number : ℕ) (tree : Tree) (bits : List Bool) → SpellsDocument WritesValue s number tree bits → SpellsDocument SpellsValue s number tree bits }
    ensures event_once { (s : PlainSchema) (old new other : State) (event : Event) (a b : List Bool) → IsStanding s old.standing
        → Moves WritesValue s old event a new → Moves WritesValue s old event b other → (a ≡ b) × (new ≡ other) }
    ensures spelled { (s : PlainSchema) (tree : Tree) (payload : List ℕ) → IsEncoding s tree payload → IsDocument s tree payload }
    ensures once { (s : PlainSchema) → IsOneEncoding s }
{}
