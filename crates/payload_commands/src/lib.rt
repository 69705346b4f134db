//! The commands that tell of payloads of ISO 15118-2: with which charging profile a car should answer one by the need in a file, the payload that
//! tells of a service of the catalogue in a file, and which set a car picks of one (own).
//!
//! Proved: `schedule`: prints the best profile for the first schedule of the payload's message that reaches the energy, and the payload of its
//! request; or tells the key at which the file is refused, the place at which the payload is, that no profile reaches the energy, or that there
//! is no schedule that can be answered (`ScheduleLeaves`); `services`: prints the payload of the message for a service of the file's catalogue, or
//! tells the key at which that is refused (`ServicesLeave`); `pick`: prints the identifier of the first set of the payload's message in which each
//! pair of a word is met, or tells that there is none, the place at which the payload is refused, or that the word spells no pairs (`PickLeaves`).
//! The file or the word and the payload have one fate at most (`one_fate_of_files`, `one_fate_of_wants`), which is what the commands leave, but for
//! want of memory (`fates_of_files_are_followed`, `fates_of_wants_are_followed`).
#![tactic(auto)]

mod answers;
mod catalogues;
mod choices;
mod details;
mod pick_laws;
mod picking;
mod schedule_command;
mod schedule_laws;

pub use catalogues::services;
pub use command_status::Status;
pub use pick_laws::{fates_of_wants_are_followed, one_fate_of_wants};
pub use picking::pick;
pub use schedule_command::schedule;
pub use schedule_laws::{fates_of_files_are_followed, one_fate_of_files};
