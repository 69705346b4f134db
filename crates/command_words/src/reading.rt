//! A command, and how it is read.

ghost use Rattle.std.specs.Prelude.{◌≡◌, ◌<◌, ◌↔◌, IfOk, IfErr, option_map};
ghost use Rattle.clap.specs.Words.{found_of, rows_of, subcommand_rows_of};
ghost use Rattle.command_words.specs.Command.{HasWordsFault, IsCommand, asked_of, dialect_named};
ghost use Rattle.command_words.specs.Grammar.{first, second, third, both, both_and_seed, count_named, dialect_and_value, number_named, seed_and_count, seed_named, value_and_number, told, told_of};

use crate::grammar::matches_of;
use crate::word_list::WordList;
use clap::ArgMatches;
use clap::error::ErrorKind;
use message_dialects::MessageDialect;
use std::alloc::Global;
use text_tokens::number;

/// The seconds of a day.
const DAY: u32 = 86_400;

/// The numbers of 16 bits.
const SHORTS: u32 = 65_536;

/// A command.
#[derive(Clone, Copy)]
pub enum Command<'a> {
    /// Serves the posts of the plan in a file.
    Station {
        plan: &'a str,
    },
    /// Drives a car by the plan in a file.
    Car {
        plan: &'a str,
    },
    /// Runs the posts of the plan in a file over the hearings of the trace in another.
    Replay {
        plan: &'a str,
        trace: &'a str,
    },
    /// Judges the trace in one file, whoever wrote it, for the plan in another.
    Audit {
        plan: &'a str,
        trace: &'a str,
    },
    /// Lets the station of the plan in one file and the car of the plan in another talk over a pipe in memory, by this seed.
    Talk {
        station: &'a str,
        car: &'a str,
        seed: u64,
    },
    /// Lets so many sessions follow one another over a pipe in memory, as the generator draws them by this seed.
    Generate {
        seed: u64,
        count: u32,
    },
    /// Prints the text of a payload of a dialect.
    Decode {
        dialect: MessageDialect,
        hex: &'a str,
    },
    /// Prints the payload of a tree text of a dialect.
    Encode {
        dialect: MessageDialect,
        text: &'a str,
    },
    /// Prints the orders for the script of basic charging in a file.
    Basic {
        script: &'a str,
    },
    /// Carries the trace of an earlier format in a file over.
    Migrate {
        trace: &'a str,
    },
    /// Prints what is offered for the day from a moment on, a second of the day, by the calendar in a file.
    Offer {
        calendar: &'a str,
        moment: u32,
    },
    /// Prints the charging profile for the need in a file within the schedules of a payload.
    Schedule {
        need: &'a str,
        hex: &'a str,
    },
    /// Prints the payload of the reply for the service of this identifier of the catalogue in a file.
    Services {
        catalogue: &'a str,
        id: u32,
    },
    /// Prints which set of the parameters of a payload is picked by what is wanted.
    Pick {
        want: &'a str,
        hex: &'a str,
    },
}

/// Why no command was read.
#[derive(Clone, Copy, Debug)]
pub enum WordsFault {
    /// The words are no command.
    NoCommand,
    /// Want of memory.
    Memory,
}

/// The command that the words are.
///
/// `NoCommand` exactly where they are none, but for want of memory, which is `Memory`.
pub fn read_words(alloc: Global, words: &WordList) -> Result<Command<'_>, WordsFault>
    ensures command { IfOk result (IsCommand words.now) }
    ensures fault { IfErr result (HasWordsFault words.now) }
{
    if !words.are_plain() {
        return Err(WordsFault::NoCommand);
    }
    match matches_of(alloc, words.as_slice()) {
        Ok(matches) => command_of(&matches).ok_or(WordsFault::NoCommand),
        Err(error) => Err(fault_of(error.kind())),
    }
}

/// The command that was found.
fn command_of<'a>(matches: &ArgMatches<'a>) -> Option<Command<'a>>
    ensures { option_map asked_of result ≡ told (subcommand_rows_of matches.now) }
{
    let (name, values) = matches.subcommand()?;
    command_named(name, values)
}

/// The command of that name with these values.
fn command_named<'a>(name: &str, values: &ArgMatches<'a>) -> Option<Command<'a>>
    ensures { option_map asked_of result ≡ told_of name.now (rows_of (found_of values.now)) }
{
    match name {
        "station" => first(values).map(|plan| Command::Station { plan }),
        "car" => first(values).map(|plan| Command::Car { plan }),
        "replay" => both(values).map(|(plan, trace)| Command::Replay { plan, trace }),
        "audit" => both(values).map(|(plan, trace)| Command::Audit { plan, trace }),
        "talk" => {
            with_seed(values).map(|(station, car, seed)| Command::Talk { station, car, seed })
        }
        "generate" => {
            seed_and_count(values).map(|(seed, count)| Command::Generate { seed, count })
        }
        "decode" => on_dialect(values).map(|(dialect, hex)| Command::Decode { dialect, hex }),
        "encode" => on_dialect(values).map(|(dialect, text)| Command::Encode { dialect, text }),
        "basic" => first(values).map(|script| Command::Basic { script }),
        "migrate" => first(values).map(|trace| Command::Migrate { trace }),
        "offer" => {
            with_number(values, DAY).map(|(calendar, moment)| Command::Offer { calendar, moment })
        }
        "schedule" => both(values).map(|(need, hex)| Command::Schedule { need, hex }),
        "services" => {
            with_number(values, SHORTS).map(|(catalogue, id)| Command::Services { catalogue, id })
        }
        "pick" => both(values).map(|(want, hex)| Command::Pick { want, hex }),
        _ => None,
    }
}

/// The first value of a command.
fn first<'a>(values: &ArgMatches<'a>) -> Option<&'a str>
    ensures { option_map (λ word. word.now) result ≡ first (rows_of (found_of values.now)) }
{
    values.get_str("FIRST")
}

/// The second value of a command.
fn second<'a>(values: &ArgMatches<'a>) -> Option<&'a str>
    ensures { option_map (λ word. word.now) result ≡ second (rows_of (found_of values.now)) }
{
    values.get_str("SECOND")
}

/// The third value of a command.
fn third<'a>(values: &ArgMatches<'a>) -> Option<&'a str>
    ensures { option_map (λ word. word.now) result ≡ third (rows_of (found_of values.now)) }
{
    values.get_str("THIRD")
}

/// The first two values of a command.
fn both<'a>(values: &ArgMatches<'a>) -> Option<(&'a str, &'a str)>
    ensures { option_map (λ pair. (pair.0.now, pair.1.now)) result ≡ both (rows_of (found_of values.now)) }
{
    let one = first(values)?;
    let other = second(values)?;
    Some((one, other))
}

/// The first value of a command, and the number below a bound that the second is.
fn with_number<'a>(values: &ArgMatches<'a>, bound: u32) -> Option<(&'a str, u32)>
    requires { 0 < bound }
    ensures { option_map (λ pair. (pair.0.now, pair.1)) result ≡ value_and_number bound (rows_of (found_of values.now)) }
{
    let value = first(values)?;
    let number = number_named(second(values)?, bound)?;
    Some((value, number))
}

/// The number below a bound that a word is.
fn number_named(word: &str, bound: u32) -> Option<u32>
    requires { 0 < bound }
    ensures { result ≡ number_named 0 bound word.now }
{
    match number(word.as_bytes(), 0, u64::from(bound - 1)) {
        Ok(number) => Some(number as u32),
        Err(_) => None,
    }
}

/// The first two values of a command, and the seed that the third is.
fn with_seed<'a>(values: &ArgMatches<'a>) -> Option<(&'a str, &'a str, u64)>
    ensures { option_map (λ found. (found.0.now, found.1.now, found.2)) result ≡ both_and_seed (rows_of (found_of values.now)) }
{
    let (one, other) = both(values)?;
    let seed = seed_named(third(values)?)?;
    Some((one, other, seed))
}

/// The seed that a word is, a number of 64 bits.
fn seed_named(word: &str) -> Option<u64>
    ensures { result ≡ seed_named word.now }
{
    match number(word.as_bytes(), 0, u64::MAX) {
        Ok(seed) => Some(seed),
        Err(_) => None,
    }
}

/// The seed and the count that the values of a command are.
fn seed_and_count<'a>(values: &ArgMatches<'a>) -> Option<(u64, u32)>
    ensures { result ≡ seed_and_count (rows_of (found_of values.now)) }
{
    let seed = seed_named(first(values)?)?;
    let count = count_named(second(values)?)?;
    Some((seed, count))
}

/// The count of sessions that a word is, 1 to 1,000.
fn count_named(word: &str) -> Option<u32>
    ensures { result ≡ count_named word.now }
{
    match number(word.as_bytes(), 1, 1000) {
        Ok(count) => Some(count as u32),
        Err(_) => None,
    }
}

/// The dialect and the value of a command.
fn on_dialect<'a>(values: &ArgMatches<'a>) -> Option<(MessageDialect, &'a str)>
    ensures { option_map (λ pair. (pair.0, pair.1.now)) result ≡ dialect_and_value (rows_of (found_of values.now)) }
{
    let dialect = dialect_named(first(values)?)?;
    let value = second(values)?;
    Some((dialect, value))
}

/// The dialect of a word.
fn dialect_named(word: &str) -> Option<MessageDialect>
    ensures { result ≡ dialect_named word.now }
{
    match word {
        "app" => Some(MessageDialect::App),
        "iso" => Some(MessageDialect::Iso),
        "din" => Some(MessageDialect::Din),
        _ => None,
    }
}

/// What an error of `clap` says of the words.
fn fault_of(kind: ErrorKind) -> WordsFault
    ensures memory { (result ≡ WordsFault.Memory) ↔ (kind ≡ ErrorKind.OutOfMemory) }
{
    if kind == ErrorKind::OutOfMemory {
        WordsFault::Memory
    } else {
        WordsFault::NoCommand
    }
}
