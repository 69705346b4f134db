//! The memory of this program, as Linux counts it in `/proc/self/status`.

use anyhow::{Context, Result, bail};
use std::fs;

/// The bytes of this program's heap: whole pages, with what it freed and didn't give back to the system.
pub(crate) fn heap_bytes(rt: &HostRuntime) -> Result<u64> {
    let status = fs::read(rt, "/proc/self/status")?;
    heap_in(str::from_utf8(status.as_slice())?)
}

/// The number behind `VmData:`, which is in kilobytes, in bytes.
fn heap_in(status: &str) -> Result<u64> {
    for line in status.lines() {
        if let Some(rest) = line.strip_prefix("VmData:") {
            let word = rest
                .trim()
                .split(' ')
                .next()
                .context("no number of kilobytes")?;
            let kilobytes: u64 = word.parse()?;
            return Ok(kilobytes.saturating_mul(1024));
        }
    }
    bail!("no number of the heap's bytes")
}
