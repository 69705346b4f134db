//! The documents of the negotiation (ISO 15118-2:2014, section 8.2), as definitions that contracts cite: its declarations, and the trees of
//! its messages.
//!
//! Proved: `documents_are_messages`: each document of the negotiation's declarations is the tree of a request or of a response within its
//! ranges; `messages_are_written`: each message within its ranges has an encoding, of at most 32,768 bytes; `responses_are_short`: that of
//! a response has at most 28 bits; `one_message`: a tree is that of one message.
#![tactic(auto)]

ghost use Rattle.std.specs.Prelude.{◌≡◌, ℕ, ◌*◌, ◌≤◌, Bool, List, length, Option};
ghost use Rattle.exi_documents.specs.Documents.{SpellsDocument};
ghost use Rattle.exi_documents.specs.Trees.{Tree};
ghost use Rattle.exi_documents.specs.Values.{SpellsValue, WritesValue};
ghost use Rattle.app_schema.specs.Declarations.{negotiation_schema};
ghost use Rattle.app_documents.specs.Trees.{Message, Response, IsMessage, tree_of, number_of};

/// Each document of the negotiation is the tree of a request or of a response within its ranges.
pub fn documents_are_messages()
    ensures { (number : ℕ) (tree : Tree) (bits : List Bool) → SpellsDocument SpellsValue negotiation_schema number tree bits
        → (m : Message) × IsMessage m × (tree ≡ tree_of m) × (number ≡ number_of m) }
{}

/// Each message within its ranges is written by some bits, no more than 32,768 bytes hold.
pub fn messages_are_written()
    ensures { (m : Message) → IsMessage m
        → (bits : List Bool) × SpellsDocument WritesValue negotiation_schema (number_of m) (tree_of m) bits × (length bits ≤ 8 * 32768) }
{}

/// What is written for a response has at most 28 bits.
pub fn responses_are_short()
    ensures { (number code : ℕ) (schema : Option ℕ) (bits : List Bool)
        → SpellsDocument WritesValue negotiation_schema number (tree_of (Response code schema)) bits → length bits ≤ 28 }
{}

/// A tree is that of one message.
pub fn one_message()
    ensures { (m n : Message) → tree_of m ≡ tree_of n → m ≡ n }
{}
