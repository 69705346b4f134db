//! Changes of a trace, line by line.
//!
//! Nothing but the outcome of a call, and that of the same call, may stand in the place of a line of what the site did.

ghost use Rattle.std.specs.Prelude.{◌<◌};

use row_texts::add_line;
use std::alloc::{AllocError, Global};

/// A change of one line.
#[derive(Clone, Copy, Debug)]
pub(crate) enum Change {
    LeftOut,
    Doubled,
    /// With another digit, or another order.
    Altered,
    /// Behind the line that follows it; the last one before the one before it.
    Moved,
}

impl Change {
    pub(crate) const ALL: [Change; 4] = [
        Change::LeftOut,
        Change::Doubled,
        Change::Altered,
        Change::Moved,
    ];
}

/// Whether a line tells what the site did. Each begins with the number of its hearing.
fn is_done(line: &str) -> bool {
    match line.split_once(' ') {
        Some((_, rest)) => !rest.starts_with("heard ") && rest != "lost",
        None => false,
    }
}

/// The places of every so manieth line of what the site did, behind the first line. Which one is first depends on how many lines there are behind it.
pub(crate) fn places_of(
    alloc: Global,
    lines: &[&str],
    step: usize,
) -> Result<Vec<usize>, AllocError>
    requires { 0 < step }
{
    lines
        .iter()
        .enumerate()
        .skip(1)
        .filter(|(_, line)| is_done(*line))
        .map(|(place, _)| place)
        .skip(lines.len().saturating_sub(1) % step)
        .step_by(step)
        .collect(alloc)
}

/// The trace of these lines with a change of the one at this place, if it is there.
pub(crate) fn changed(
    alloc: Global,
    lines: &[&str],
    place: usize,
    change: Change,
) -> Result<String, AllocError> {
    let mut text = String::new(alloc);
    // the last line is moved with the one before it
    let place = match change {
        Change::Moved => place.min(lines.len().saturating_sub(2)),
        _ => place,
    };
    for (at, line) in lines.iter().enumerate() {
        if at == place {
            put_changed(&mut text, line, place, change)?;
        } else {
            add_line(&mut text, line)?;
            if at == place.saturating_add(1) && matches!(change, Change::Moved) {
                put_behind(&mut text, line, lines[place])?;
            }
        }
    }
    Ok(text)
}

/// Puts what stands at the place of a changed line.
fn put_changed(
    text: &mut String,
    line: &str,
    place: usize,
    change: Change,
) -> Result<(), AllocError> {
    match change {
        Change::LeftOut | Change::Moved => Ok(()),
        Change::Doubled => {
            add_line(text, line)?;
            add_line(text, line)
        }
        Change::Altered => put_altered(text, line, place),
    }
}

/// Puts a line behind another one, with the number of that one's hearing.
fn put_behind(text: &mut String, other: &str, line: &str) -> Result<(), AllocError> {
    let number = match other.split_once(' ') {
        Some((number, _)) => number,
        None => "",
    };
    let rest = match line.split_once(' ') {
        Some((_, rest)) => rest,
        None => "",
    };
    text.push_str(number)?;
    text.push(' ')?;
    add_line(text, rest)
}

/// Puts another order, or a line with another digit in one of its amounts or in its bytes, by the place.
fn put_altered(text: &mut String, line: &str, place: usize) -> Result<(), AllocError> {
    let (front, rest) = match line.split_once(" limits ") {
        Some((front, amounts)) => (front, amounts),
        None => line.rsplit_once(' ').unwrap_or((line, "")),
    };
    text.push_str(front)?;
    match rest {
        "open" => add_line(text, " close"),
        "close" => add_line(text, " open"),
        _ => {
            text.push_str(if line.contains(" limits ") {
                " limits "
            } else {
                " "
            })?;
            put_other_digit(text, rest, place % rest.len().max(1))?;
            add_line(text, "")
        }
    }
}

/// Puts a text of digits and spaces in which the digit at this place, or behind it, is another one.
fn put_other_digit(text: &mut String, digits: &str, place: usize) -> Result<(), AllocError> {
    let mut is_altered = false;
    for (at, digit) in digits.chars().enumerate() {
        if at >= place && digit != ' ' && !is_altered {
            text.push(other_digit(digit))?;
            is_altered = true;
        } else {
            text.push(digit)?;
        }
    }
    Ok(())
}

/// Another hexadecimal digit, and for a decimal one another decimal one that isn't 0.
fn other_digit(digit: char) -> char {
    match digit {
        '0' => '1',
        '1' => '2',
        '2' => '3',
        '3' => '4',
        '4' => '5',
        '5' => '6',
        '6' => '7',
        '7' => '8',
        '8' => '9',
        '9' => '8',
        'a' => 'b',
        'b' => 'c',
        'c' => 'd',
        'd' => 'e',
        'e' => 'f',
        _ => 'e',
    }
}
