//! Payloads that are changed, and then read as messages and printed alike.

ghost use Rattle.std.specs.Prelude.{◌≡◌, ◌≤◌, length, IfOk};

use crate::typed::Codecs;
use anyhow::{Result, bail};
use message_trees::{MessageDialect, PrintFault, print_payload};
use std::alloc::Global;

/// Behind how many of its bits a payload can be cut so that it is read as a message and printed alike: the rest of the last byte is 0.
pub(crate) fn cuts_alike(
    alloc: Global,
    codecs: &Codecs,
    dialect: MessageDialect,
    payload: &[u8],
) -> Result<u64>
    requires { length payload.now ≤ 65536 }
{
    let mut alike = 0_u64;
    for i in 0..payload.len() {
        for bits in 0..8 {
            let mut cut = copy_of(alloc, &payload[..i + 1])?;
            cut[i] = front_of(payload[i], bits);
            alike = alike.saturating_add(is_alike(alloc, codecs, dialect, cut.as_slice())?);
        }
    }
    Ok(alike)
}

/// How many codes of one to three bits can be put anywhere into a payload so that it is read as a message and printed alike.
pub(crate) fn codes_alike(
    alloc: Global,
    codecs: &Codecs,
    dialect: MessageDialect,
    payload: &[u8],
) -> Result<u64>
    requires { length payload.now ≤ 65536 }
{
    let mut alike = 0_u64;
    for width in 1..4 {
        for place in 0..8 * payload.len() {
            if place + width <= 8 * payload.len() {
                alike = alike.saturating_add(codes_at(
                    alloc, codecs, dialect, payload, place, width,
                )?);
            }
        }
    }
    Ok(alike)
}

/// The same at one place, of codes of one width.
fn codes_at(
    alloc: Global,
    codecs: &Codecs,
    dialect: MessageDialect,
    payload: &[u8],
    place: usize,
    width: usize,
) -> Result<u64>
    requires payload { length payload.now ≤ 65536 }
    requires width { width ≤ 3 }
    requires place { place ≤ 524288 }
{
    let mut alike = 0_u64;
    for code in 0..1_usize << width {
        let mut changed = copy_of(alloc, payload)?;
        for i in 0..width {
            put_bit(
                changed.as_mut_slice(),
                place + i,
                code >> (width - 1 - i) & 1 == 1,
            );
        }
        alike = alike.saturating_add(is_alike(alloc, codecs, dialect, changed.as_slice())?);
    }
    Ok(alike)
}

/// 1 where a payload is read as a message exactly where it is printed, or refused alike.
fn is_alike(
    alloc: Global,
    codecs: &Codecs,
    dialect: MessageDialect,
    payload: &[u8],
) -> Result<u64> {
    if payload.len() > 65_536 {
        bail!("a long payload");
    }
    let refusal = match print_payload(alloc, dialect, payload) {
        Ok(_) => None,
        Err(PrintFault::Refused(refusal)) => Some(refusal),
        Err(PrintFault::Memory) => bail!("no memory"),
    };
    Ok(u64::from(codecs.refuses_so(alloc, dialect, payload, refusal)?))
}

/// The same bytes once more.
fn copy_of(alloc: Global, bytes: &[u8]) -> Result<Vec<u8>>
    ensures { IfOk result (λ copy. length copy.items ≡ length bytes.now) }
{
    let mut copy = Vec::new(alloc);
    copy.extend_from_slice(bytes)?;
    Ok(copy)
}

/// The first bits of a byte, and 0 behind them.
fn front_of(byte: u8, bits: u32) -> u8
    requires { bits ≤ 7 }
{
    byte & !(0xff_u8 >> bits)
}

/// Puts a bit at a place, the highest bit of the first byte first; nothing where there is no such byte.
fn put_bit(bytes: &mut [u8], place: usize, bit: bool)
    ensures { length bytes.new ≡ length bytes.old }
{
    let i = place / 8;
    if i < bytes.len() {
        let mask = 0x80_u8 >> (place % 8) as u32;
        if bit {
            bytes[i] |= mask;
        } else {
            bytes[i] &= !mask;
        }
    }
}
