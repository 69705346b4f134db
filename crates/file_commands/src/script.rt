//! A whole script.

ghost use Rattle.std.specs.Prelude.{◌≡◌, ◌==◌, ◌+◌, ◌≤◌, ℕ, List, length, IfOk, IfErr, MatchResult, string_bytes};
ghost use Rattle.std.specs.List.{count_by};
ghost use Rattle.file_commands.specs.Scripts.{IsPrinted, IsReadSo, IsBadLine, IsRefusedAt};

use crate::lines::first_line;
use crate::orders::add_orders;
use pilot_basic::Basic;
use std::alloc::Global;
use trace_text::LineFault;

/// The bytes that a script has at most.
pub const LONGEST_SCRIPT: usize = 65_536;

/// How many line feeds there are, and one more.
fn lines_in(text: &[u8]) -> u64
    requires { length text.now ≤ 65536 }
    ensures { result ≡ count_by (λ byte. byte == 10) text.now + 1 }
{
    text.iter().filter(|byte| **byte == b'\n').count() as u64 + 1
}

/// Runs the lines of a script from the first on, and gives the lines of the orders.
fn run(alloc: Global, script: &[u8]) -> Result<String, LineFault>
    requires { length script.now ≤ 65536 }
    ensures run { IfOk result (λ printed. IsReadSo script.now (string_bytes printed)) }
    ensures bad { IfErr result (λ fault. (number : ℕ) → fault ≡ LineFault.BadLine number → IsBadLine script.now number) }
{
    let mut basic = Basic::new();
    let mut now: u64 = 0;
    let mut number = 1;
    let mut printed = String::new(alloc);
    let mut rest = script;
    while !rest.is_empty() {
        let Ok((line, more)) = first_line(rest) else {
            return Err(LineFault::BadLine(number));
        };
        now = now.max(line.at);
        let orders = basic.step(line.at, &line.event);
        if add_orders(alloc, &mut printed, now, orders.as_slice()).is_err() {
            return Err(LineFault::Memory);
        }
        number += 1;
        rest = more;
    }
    Ok(printed)
}

/// The lines of the orders that a post gives for the events of a script, which has at most 65,536 bytes.
///
/// `BadLine` exactly where the script isn't one, with its first line that is outside the grammar, counted from 1, or the one in which it
/// passes the limit. `Memory` may come for any script.
pub fn orders_of(alloc: Global, script: &[u8]) -> Result<String, LineFault>
    ensures printed { IfOk result (λ printed. IsPrinted script.now (string_bytes printed)) }
    ensures one { (printed : List ℕ) → IsPrinted script.now printed → MatchResult result (λ given. string_bytes given ≡ printed) (λ fault. fault ≡ LineFault.Memory) }
    ensures bad { IfErr result (λ fault. (number : ℕ) → fault ≡ LineFault.BadLine number → IsRefusedAt script.now number) }
{
    if script.len() > LONGEST_SCRIPT {
        return Err(LineFault::BadLine(lines_in(&script[..LONGEST_SCRIPT])));
    }
    run(alloc, script)
}
