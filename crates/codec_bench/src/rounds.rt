//! Payloads of the negotiation read, and messages of it written, so many times.

ghost use Rattle.std.specs.Prelude.{◌≡◌, IfOk};
ghost use Rattle.std.specs.List.{AllByRecursion};
ghost use Rattle.exi_documents.specs.Values.{most_entries};
ghost use Rattle.app_documents.specs.Trees.{IsMessage};
ghost use Rattle.app_protocol.specs.Messages.{message_of};

use anyhow::{Context, Result};
use app_protocol::{AppMessage, Table, read_app, write_app};
use row_texts::Vector;
use std::alloc::Global;

/// Reads each payload in each round, and counts them.
pub(crate) fn read_rounds(payloads: &Vec<Vec<u8>>, table: &mut Table, rounds: u32) -> u64
    requires { table.old.cap ≡ most_entries }
{
    let mut count = 0;
    for _ in 0..rounds {
        count = read_all(payloads, table, count);
    }
    count
}

/// Writes each message in each round, and counts them.
pub(crate) fn write_rounds(messages: &Vec<AppMessage<'_>>, table: &mut Table, rounds: u32) -> u64
    requires cap { table.old.cap ≡ most_entries }
    requires messages { AllByRecursion (λ m. IsMessage (message_of m)) messages.now.items }
{
    let mut count = 0;
    for _ in 0..rounds {
        count = write_all(messages, table, count);
    }
    count
}

/// The payloads of the lines, which have at most 65,536 bytes.
pub(crate) fn payloads_of(alloc: Global, text: &str) -> Result<Vec<Vec<u8>>> {
    let mut payloads = Vec::new(alloc);
    for line in text.lines() {
        let vector = Vector::of(line).context("a line without an answer")?;
        payloads.push(vector.bytes(alloc)?)?;
    }
    Ok(payloads)
}

/// Reads each payload once, and adds their number to the count.
fn read_all(payloads: &Vec<Vec<u8>>, table: &mut Table, count: u64) -> u64
    requires { table.old.cap ≡ most_entries }
    ensures { table.new.cap ≡ most_entries }
{
    let mut count = count;
    for payload in payloads {
        if payload.len() <= 65536 {
            let _ = read_app(payload.as_slice(), table);
            count = count.wrapping_add(1);
        }
    }
    count
}

/// The messages that the payloads spell.
pub(crate) fn messages_of<'a>(
    alloc: Global,
    payloads: &'a Vec<Vec<u8>>,
    table: &mut Table,
) -> Result<Vec<AppMessage<'a>>>
    requires { table.old.cap ≡ most_entries }
    ensures cap { table.new.cap ≡ most_entries }
    ensures messages { IfOk result (λ messages. AllByRecursion (λ m. IsMessage (message_of m)) messages.items) }
{
    let mut messages = Vec::new(alloc);
    for payload in payloads {
        if payload.len() > 65536 {
            continue;
        }
        if let Ok(message) = read_app(payload.as_slice(), table) {
            messages.push(message)?;
        }
    }
    Ok(messages)
}

/// Writes each message once, and adds their number to the count.
fn write_all(messages: &Vec<AppMessage<'_>>, table: &mut Table, count: u64) -> u64
    requires cap { table.old.cap ≡ most_entries }
    requires messages { AllByRecursion (λ m. IsMessage (message_of m)) messages.now.items }
    ensures { table.new.cap ≡ most_entries }
{
    let mut room = [0; 4096];
    let mut count = count;
    for message in messages {
        let _ = write_app(message, &mut room, table);
        count = count.wrapping_add(1);
    }
    count
}
