//! The files of smart charging and of value-added services, read from TOML (own): the calendar of a station, the need of a car, and the catalogue of
//! a station's services; and what a command leaves that reads a file and prints lines.
//!
//! `specs/ScheduleKeys.antt` and `CatalogueKeys.antt` have the tables of their keys, one line a key. Texts of a catalogue are lent from its table.
//!
//! Proved: `calendar_of`, `need_of`: the calendar and the need that a text says (`IsCalendarOf`, `IsNeedOf`), or its first fault (`AnswersBy`),
//! of which each text has at most one; within the rules of calendars and needs (`IsCalendar`, `IsNeed`); `calendar_in`, `need_in`: those of a file;
//! `service_in`: the first service of an identifier that a table says (`first_of`), or the table's first fault (`AnswersBy`), of which each table has
//! at most one; `print_lines`: all of the lines in one write, or a front of them where that fails (`Prints`); `refuse_file`: the line and the status
//! of a fault of the file (`Refuses`).
#![tactic(auto)]

mod calendar;
mod catalogue;
mod forms;
mod need;
mod parameters;
mod printing;
mod sets;

pub use calendar::{calendar_in, calendar_of};
pub use catalogue::service_in;
pub use command_status::Status;
pub use need::{need_in, need_of};
pub use plan_files::PlanFileFault;
pub use plan_keys::{Key, PlanFault, document};
pub use printing::{print_lines, refuse_file};
pub use schedules::{Calendar, Need, Step};
pub use service_spec::{Parameter, ParameterSet, Service, Value};
