//! Lines.

ghost use Rattle.std.specs.Prelude.{◌≡◌, ◌++◌, [], ◌∷◌, OnOk};
ghost use Rattle.std.specs.String.{string_bytes};

use std::alloc::{AllocError, Global};

/// Adds a line to a text.
pub fn add_line(text: &mut String, line: &str) -> Result<(), AllocError>
    ensures { OnOk result (string_bytes text.new ≡ string_bytes text.old ++ line.now ++ 10 ∷ []) }
{
    text.push_str(line)?;
    text.push('\n')
}

/// The lines of a text that begin with a mark, without it.
pub fn lines_behind(alloc: Global, text: &str, mark: &str) -> Result<String, AllocError> {
    let mut lines = String::new(alloc);
    for line in text.lines() {
        if let Some(rest) = line.strip_prefix(mark) {
            add_line(&mut lines, rest)?;
        }
    }
    Ok(lines)
}

/// The numbers that stand in a text behind a mark, each in a line of its own.
pub fn numbers_behind(alloc: Global, text: &str, mark: &str) -> anyhow::Result<Vec<u32>> {
    let mut numbers = Vec::new(alloc);
    for line in text.lines() {
        if let Some(rest) = line.strip_prefix(mark) {
            numbers.push(rest.parse()?)?;
        }
    }
    Ok(numbers)
}
