//! The commands that read a file and print lines of it: the orders of basic charging for a script, and what a station offers at a moment of a day by
//! its calendar (own).
//!
//! A line of a script is `AT pilot X`, `AT offer A`, `AT digital`, `AT ended`, `AT feedback closed`, `AT feedback open` or `AT tick`, with
//! the moment AT in milliseconds, the state X of the pilot from A to F, and a current A from 60 to 800 tenths of an ampere. A line for an
//! order is `AT duty D`, with a duty D in tenths of a percent, `AT open` or `AT close`, at the moment as it counts.
//!
//! Proved: `basic`: prints the lines of the orders of a run of the machine over the script's events, the one text that there is, whose contactor is
//! closed for ready vehicles alone, or tells the first line that is outside the grammar (`BasicLeaves`); `offer`: prints the lines of the one offer of
//! the file's calendar at the moment, or tells the key at which the file is refused (`OfferLeaves`).
#![tactic(auto)]

mod basic_command;
mod lines;
mod offer_command;
mod offers;
mod orders;
mod script;
mod script_files;

pub use basic_command::basic;
pub use command_status::Status;
pub use offer_command::offer;
