//! The world outside of a charging site: what it tells, what may be done to it, and fakes of it in memory.
//!
//! The core of a station or of a car meets the world through three traits: `Wire` (connections, datagrams,
//! the charger and the clock), `Source` (files that are read) and `Sink` (files that are written). What they
//! tell is written down in their ghost members, which the contracts of the core speak of.
//!
//! Proved: `Tenths::of` takes exactly 0 to 30,000 tenths. The fakes in memory keep the promises of `Wire`, `Source` and `Sink` (`Outside`),
//! fail exactly the calls that they are told to (`Counts`), say what each call leaves, and tell what they keep exactly as long as it has
//! the room that they were made with (`Spends`, `NotesHearing`, `SpendsBytes`). `SureWire`, `SureSource` and `SureSink` are the same with no
//! call that fails: each is done, and their counts of faults are the constant 0.
#![tactic(auto)]

pub mod entry;
pub mod failed;
pub mod heard;
mod log;
pub mod memory_sink;
pub mod memory_source;
pub mod memory_wire;
pub mod numbers;
pub mod offer;
mod outages;
pub mod outside;
pub mod piece;
pub mod ports;
mod reserved;
pub mod sure_sink;
pub mod sure_source;
pub mod sure_wire;

pub use entry::Entry;
pub use failed::{Failed, NoMemory};
pub use heard::{Heard, IsolationLevel, PilotState, PlantEvent, What};
pub use memory_sink::MemorySink;
pub use memory_source::{MemorySource, NamedFile};
pub use memory_wire::{MemoryWire, Scripted};
pub use numbers::Tenths;
pub use offer::{Dialect, Offer};
pub use outside::{Sink, Source, Wire};
pub use piece::Piece;
pub use ports::{Order, PortPair, Ports};
pub use sure_sink::SureSink;
pub use sure_source::SureSource;
pub use sure_wire::SureWire;
