//! Why a script of basic charging is refused.

use crate::trace::line_in;
use charge_world::Source;
use std::io;

/// What a line is that begins as this one.
fn form_of(line: &str) -> &'static str {
    let event = match line.split_once(' ') {
        Some((_, event)) => event,
        None => "",
    };
    let kind = match event.split_once(' ') {
        Some((kind, _)) => kind,
        None => event,
    };
    match kind {
        "pilot" => "`AT pilot X`, with a state X from A to F",
        "offer" => "`AT offer A`, with a current A from 60 to 800 tenths of an ampere",
        "feedback" => "`AT feedback closed` or `AT feedback open`",
        "digital" | "ended" | "tick" => "`AT digital`, `AT ended` or `AT tick`",
        _ =>
            "`AT pilot X`, `AT offer A`, `AT digital`, `AT ended`, `AT feedback closed`, `AT feedback open` or `AT tick`",
    }
}

/// Says which line of the script in the file of that name is refused, and what it could be.
pub fn say_script<E: Eprint, F: Source>(
    rt: &E,
    files: &mut F,
    name: &str,
    number: u64,
) -> io::Result<()> {
    eprintln!(rt; "Line {number} of {name} is refused.")?;
    if let Some(line) = line_in(files, name, number) {
        match str::from_utf8(line.as_slice()) {
            Ok(text) => {
                eprintln!(rt; "It begins: {text}\nSuch a line is {}.", form_of(text))?;
            }
            Err(_) => rt.eprintln("It is no text.")?,
        }
    }
    rt.eprintln(
        "AT is the moment in milliseconds; numbers have no leading zero, words one space between them, each line ends in a line feed, and a script has 65536 bytes at most.",
    )
}
