//! The two ways in which a call that does nothing wrong may not be done.

/// Want of memory. Calls that can answer it take an allocator; serving takes none.
pub use std::alloc::AllocError as NoMemory;

/// A call on the outside that was not done: a socket, a file or the charger did not take it.
#[derive(Clone, Copy, Debug, PartialEq, Eq)]
pub struct Failed;
