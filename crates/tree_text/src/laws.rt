//! Laws of the text of a tree.

ghost use Rattle.std.specs.Prelude.{◌≡◌, ℕ, Bool, true, List, ◌++◌, reverse};
ghost use Rattle.exi_schema.specs.Schemas.{PlainSchema};
ghost use Rattle.exi_documents.specs.Documents.{SpellsDocument, IsEncoding};
ghost use Rattle.exi_documents.specs.Grammar.{State, Behind, stands, Reaches};
ghost use Rattle.exi_documents.specs.Trees.{Tree, Event, document_events};
ghost use Rattle.exi_documents.specs.Values.{Entries, SpellsValue, WritesValue};
ghost use Rattle.dialect_text.specs.Dialect.{Standing, Says, IsDialectText};
ghost use Rattle.tree_text.specs.Consistent.{are_consistent};
ghost use Rattle.tree_text.specs.TreeText.{IsTreeText};
ghost use Rattle.tree_text.specs.EventText.{Tells};

/// What the events of a tree add to a text, one after the other, is the text of the tree, in any spelling and as it is written.
pub fn events_tell_texts()
    ensures spelled { (s : PlainSchema) (number : ℕ) (tree : Tree) (text : List ℕ) (state : State) → Tells SpellsValue s (reverse (document_events number tree)) text state → IsTreeText s tree text }
    ensures written { (s : PlainSchema) (number : ℕ) (tree : Tree) (text : List ℕ) (state : State) → Tells WritesValue s (reverse (document_events number tree)) text state → IsTreeText s tree text }
{}

/// The text of a tree is what its events add, one after the other, wherever bits spell them. A tree that spells a document has a text.
pub fn texts_tell_events()
    ensures reached { (s : PlainSchema) (number : ℕ) (tree : Tree) (text : List ℕ) (bits : List Bool) (state : State) → IsTreeText s tree text → Reaches SpellsValue s (reverse (document_events number tree)) bits state → Tells SpellsValue s (reverse (document_events number tree)) text state }
    ensures spelled { (s : PlainSchema) (number : ℕ) (tree : Tree) (text : List ℕ) (bits : List Bool) → IsTreeText s tree text → SpellsDocument SpellsValue s number tree bits → (entries : Entries) × Tells SpellsValue s (reverse (document_events number tree)) text (stands Behind entries) }
    ensures written { (s : PlainSchema) (number : ℕ) (tree : Tree) (text : List ℕ) (bits : List Bool) → IsTreeText s tree text → SpellsDocument WritesValue s number tree bits → (entries : Entries) × Tells WritesValue s (reverse (document_events number tree)) text (stands Behind entries) }
    ensures has_text { (s : PlainSchema) (number : ℕ) (tree : Tree) (bits : List Bool) → SpellsDocument SpellsValue s number tree bits → (text : List ℕ) × IsTreeText s tree text }
{}

/// What events tell, as they are written, a text of the dialect says, where the schema is consistent and no number of it has more than
/// 20 digits: the text of a tree that has an encoding is one of the dialect, which says the events of the tree. A text of the dialect
/// that says the events of a tree with an encoding is the text of the tree.
pub fn texts_are_of_the_dialect()
    ensures says { (s : PlainSchema) (events : List Event) (text : List ℕ) (state : State) → are_consistent s.kinds ≡ true → Tells WritesValue s events text state → (ahead : List ℕ) × (standing : Standing) × Says s events (text ++ ahead) standing }
    ensures whole { (s : PlainSchema) (tree : Tree) (payload text : List ℕ) → are_consistent s.kinds ≡ true → IsEncoding s tree payload → IsTreeText s tree text → (number : ℕ) × IsDialectText s (reverse (document_events number tree)) text }
    ensures tree { (s : PlainSchema) (number : ℕ) (tree : Tree) (text : List ℕ) (bits : List Bool) → are_consistent s.kinds ≡ true → SpellsDocument WritesValue s number tree bits → IsDialectText s (reverse (document_events number tree)) text → IsTreeText s tree text }
{}

/// A tree has one text at most.
pub fn one_text()
    ensures { (s : PlainSchema) (tree : Tree) (a b : List ℕ) → IsTreeText s tree a → IsTreeText s tree b → a ≡ b }
{}
