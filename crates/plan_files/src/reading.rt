//! The text of a file.

ghost use Rattle.std.specs.Prelude.{◌≡◌, ◌+◌, ℕ, List, IfOk, MatchResult};
ghost use Rattle.plan_files.specs.FileTexts.{IsBeginning, Told, CountsFault};

use charge_world::Source;
use std::alloc::Global;

/// Why there is no text.
#[derive(Clone, Copy, Debug)]
pub enum TextFault {
    /// The file could not be read.
    Unread,
    /// Memory ran out.
    Memory,
}

/// Reads the text of the file of that name, piece by piece, and no further once it has more than so many bytes: where it has no more, it is
/// the whole file.
///
/// What it says of the text holds where the source tells its bytes, up to the last call.
pub fn text_in<F: Source>(
    alloc: Global,
    files: &mut F,
    name: &str,
    longest: usize,
) -> Result<Vec<u8>, TextFault>
    ensures bytes { IfOk result (λ bytes. Told (F.left files.new) (F.holds files.old name.now) (λ text. IsBeginning text bytes.items (longest + 1))) }
    ensures faults { MatchResult result (λ _. F.faults files.new ≡ F.faults files.old) (CountsFault TextFault.Unread (F.faults files.old) (F.faults files.new)) }
    ensures holds { (other : List ℕ) → F.holds files.new other ≡ F.holds files.old other }
{
    if files.begin(name).is_err() {
        return Err(TextFault::Unread);
    }
    let mut bytes = Vec::new(alloc);
    let mut room = [0u8; 4096];
    while bytes.len() <= longest {
        let Ok(count) = files.read(&mut room) else {
            return Err(TextFault::Unread);
        };
        if count == 0 {
            return Ok(bytes);
        }
        if bytes.extend_from_slice(&room[..count]).is_err() {
            return Err(TextFault::Memory);
        }
    }
    Ok(bytes)
}
