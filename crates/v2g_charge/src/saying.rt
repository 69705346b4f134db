//! What is said behind a run.

use charge_run::{Status, WordList, audited_fault};
use fault_sentences::{
    Asked, DecodePlace, EncodePlace, failed_check_in, is_of_a_car, line_in, place_in,
    say_failed_check, say_help, say_misused, say_plan, say_plans, say_script, say_trouble,
    say_version,
};
use net_wire::{FileSource, NetWire, StandardOutput, TraceFile};
use std::io;
use told_wire::ToldWire;

/// The outside behind a run.
#[derive(Drop)]
pub(crate) struct Outside<'a, 'r> {
    pub(crate) files: &'a mut FileSource<'r, HostRuntime>,
    pub(crate) out: &'a StandardOutput<'r, HostRuntime>,
    pub(crate) trace: &'a TraceFile<'r, HostRuntime>,
    pub(crate) wire: &'a ToldWire<'r, HostRuntime, NetWire<'r, HostRuntime>>,
}

/// What is said of a status by itself; of the others the words and the outside tell more.
fn sentence_of(status: Status) -> Option<&'static str> {
    match status {
        Status::NoMemory => Some("There is too little memory. Nothing was begun."),
        Status::TurnsSpent => Some(
            "The greatest number of hearings, `turns` of the plan, was spent before the end. Give it more.",
        ),
        Status::Unreached => Some(
            "No charging profile within the limits reaches the energy by the departure. Ask for less, or leave later.",
        ),
        Status::NoSchedule => Some(
            "The payload offers no schedule: it is no ChargeParameterDiscoveryRes of the OK class with one, or its entries are out of order or not in W.",
        ),
        Status::NoSet => Some(
            "The payload offers no set of parameters as it is wanted: it is no ServiceDetailRes of the OK class, or no set has each parameter with that value.",
        ),
        _ => None,
    }
}

/// Says why a run of these words has its status, and what to change.
pub(crate) fn say(
    rt: &HostRuntime,
    status: Status,
    words: &WordList,
    outside: Outside<'_, '_>,
) -> io::Result<()> {
    if let Some(sentence) = sentence_of(status) {
        return rt.eprintln(sentence);
    }
    match status {
        Status::Done => say_done(rt, words, outside),
        Status::Words => say_words(rt, words),
        Status::Plan => say_refused(rt, words, outside),
        Status::Input => say_input(rt, words, outside),
        Status::WireFault => say_network(rt, words, outside),
        Status::SinkFault => say_sinks(rt, outside),
        Status::SourceFault => say_source(rt, outside.files),
        Status::AuditNo => say_audit(rt, words, outside),
        _ => Ok(()),
    }
}

/// Says what words that are no command ask for, or what is wrong with them.
fn say_words(rt: &HostRuntime, words: &WordList) -> io::Result<()> {
    match Asked::by(words) {
        Asked::Help => say_help(rt),
        Asked::Version => say_version(rt),
        Asked::Mistaken => say_misused(rt, words),
    }
}

/// Says why the network failed.
fn say_network(rt: &HostRuntime, words: &WordList, outside: Outside<'_, '_>) -> io::Result<()> {
    match outside.wire.trouble() {
        Some(trouble) => say_trouble(rt, rt.alloc(), outside.files, word(words, 1), trouble),
        None => rt.eprintln("The network failed."),
    }
}

/// The word at a place, nothing behind the last.
fn word<'a>(words: &'a WordList, place: usize) -> &'a str {
    words.get(place).unwrap_or("")
}

/// A car's trace can be replayed at a station, which tells nothing of the car.
fn say_done(rt: &HostRuntime, words: &WordList, outside: Outside<'_, '_>) -> io::Result<()> {
    let trace = word(words, 2);
    if word(words, 0) == "replay" && is_of_a_car(outside.files, trace) {
        return eprintln!(rt;
            "{trace} is the trace of a car. It was replayed as if a station had heard it, which tells nothing of the car: `replay` is for a station's trace."
        );
    }
    Ok(())
}

/// Says what a check found that fails.
fn say_audit(rt: &HostRuntime, words: &WordList, outside: Outside<'_, '_>) -> io::Result<()> {
    let (plan, trace) = (word(words, 1), word(words, 2));
    let Some(failed) = failed_check_in(outside.out.last()) else {
        return rt.eprintln("A check of the trace fails.");
    };
    let post = match audited_fault(rt.alloc(), plan, trace, outside.files) {
        // a file may have changed since
        Some(fault) if fault.line == failed.line && usize::from(fault.check) == failed.check => {
            Some(fault.post)
        }
        _ => None,
    };
    say_failed_check(rt, outside.files, trace, failed, post)
}

/// Says why a plan is refused.
fn say_refused(rt: &HostRuntime, words: &WordList, outside: Outside<'_, '_>) -> io::Result<()> {
    let name = word(words, 1);
    match word(words, 0) {
        "station" | "replay" | "audit" => say_plan(rt, rt.alloc(), outside.files, false, name),
        "car" => say_plan(rt, rt.alloc(), outside.files, true, name),
        "talk" => say_plans(rt, rt.alloc(), outside.files, name, word(words, 2)),
        "offer" => say_form(rt, name, CALENDAR),
        "schedule" => say_form(rt, name, NEED),
        "services" => say_form(rt, name, CATALOGUE),
        _ => eprintln!(rt; "{name} is refused at the key that the line on the output names."),
    }
}

/// Says what a file of that name is to be.
fn say_form(rt: &HostRuntime, name: &str, form: &str) -> io::Result<()> {
    eprintln!(rt; "{name} is refused at that key. {form}")
}

/// Says where an input is refused.
fn say_input(rt: &HostRuntime, words: &WordList, outside: Outside<'_, '_>) -> io::Result<()> {
    let Some(place) = place_in(outside.out.last()) else {
        return rt.eprintln("The input is refused.");
    };
    let first = word(words, 1);
    let second = word(words, 2);
    match word(words, 0) {
        "decode" => rt.eprintln(DecodePlace {
            dialect: first,
            hex: second,
            place,
        }),
        "encode" => rt.eprintln(EncodePlace {
            dialect: first,
            text: second,
            place,
        }),
        "replay" | "audit" => say_line(rt, second, place, STATION_LINE, outside),
        "migrate" => say_line(rt, first, place, PLAIN_LINE, outside),
        "schedule" | "pick" => rt.eprintln(DecodePlace {
            dialect: "iso",
            hex: second,
            place,
        }),
        "basic" => say_script(rt, outside.files, first, place),
        _ => eprintln!(rt; "The input is refused at place {place}, counted from 0."),
    }
}

/// What a calendar is.
const CALENDAR: &str =
    "A calendar is a list `entry` of 1 to 24 tables, each with `start` (seconds of the day, 0 to 86399: 0 in the first, and rising) and `watts` (0 to 8000000), in at most 65536 bytes.";

/// What a need is.
const NEED: &str =
    "A need has `energy` (watt-hours, 0 to 1000000), `departure` (seconds, 1 to 86400) and `max_watts` (1 to 1000000), in at most 65536 bytes.";

/// What a catalogue is.
const CATALOGUE: &str =
    "A catalogue is a list `service` of 1 to 8 tables, each with `id` (0 to 65535) and a list `set` of at most 16, each with `id` (-32768 to 32767) and a list `param` of 1 to 16, each with `name` (1 to 64 letters, digits or _) and `value` (true or false, a number of 32 bits, or at most 64 characters without \" and ;), in at most 65536 bytes; `bytes` is also told where the payload has more.";

/// What a line of a trace is that can be replayed.
const STATION_LINE: &str = "a trace of a station with the plan's posts";

/// What a line of a trace is that can be carried over.
const PLAIN_LINE: &str =
    "a trace of format 1, whose lines have no number before them and whose posts are 1 to 8";

/// Says which line of a trace is refused, and what it should have been a line of.
fn say_line(
    rt: &HostRuntime,
    name: &str,
    number: u64,
    of: &str,
    outside: Outside<'_, '_>,
) -> io::Result<()> {
    eprintln!(rt;
        "Line {number} of {name} is refused: it is no line of {of}, can't stand there, or is cut off."
    )?;
    let Some(line) = line_in(outside.files, name, number) else {
        return rt.eprintln("The trace ends before that line does.");
    };
    match str::from_utf8(line.as_slice()) {
        Ok(text) => eprintln!(rt; "It begins: {text}"),
        Err(_) => rt.eprintln("It is no text."),
    }
}

/// Says what could not be written.
fn say_sinks(rt: &HostRuntime, outside: Outside<'_, '_>) -> io::Result<()> {
    if let Some(reason) = outside.out.trouble() {
        eprintln!(rt; "Standard output can't be written: {reason}.")?;
    }
    if let Some(reason) = outside.trace.trouble() {
        eprintln!(rt;
            "The trace {} can't be written in the folder in which the program runs: {reason}. Run it where there is room, and where it may write.",
            outside.trace.name()
        )?;
    }
    Ok(())
}

/// Says which file could not be read.
fn say_source(rt: &HostRuntime, files: &FileSource<'_, HostRuntime>) -> io::Result<()> {
    let name = files.name().unwrap_or("A file");
    match files.trouble() {
        Some(reason) => eprintln!(rt;
            "{name} can't be read: {reason}. Its path is counted from the folder in which the program runs."
        ),
        None => eprintln!(rt; "{name} can't be read."),
    }
}
