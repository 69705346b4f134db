//! Messages of DIN SPEC 70121.

ghost use Rattle.std.specs.Prelude.{◌≡◌, ◌≤◌, length};
ghost use Rattle.exi_documents.specs.Values.{most_entries};
ghost use Rattle.din_message.specs.Documents.{IsDinMessage};

use crate::Task;
use anyhow::Result;
use din_codec::{DinMessage, DinTables, read_din, write_din};
use exi_events::Table;
use std::alloc::Global;

/// Room for what is written.
const ROOM: usize = 4096;

/// Does the task with each payload in each round, and counts them.
pub(crate) fn rounds(
    alloc: Global,
    task: Task,
    payloads: &Vec<Vec<u8>>,
    table: &mut Table,
    rounds: u32,
) -> Result<u64>
    requires { table.old.cap ≡ most_entries }
{
    let tables = DinTables::make(alloc)?;
    let mut count = 0_u64;
    for payload in payloads {
        let done = do_often(&tables, task, payload.as_slice(), table, rounds);
        count = count.wrapping_add(done);
    }
    Ok(count)
}

/// Does the task with one payload so many times, and counts them; 0 for one that is too long.
fn do_often(tables: &DinTables, task: Task, payload: &[u8], table: &mut Table, rounds: u32) -> u64
    requires { table.old.cap ≡ most_entries }
    ensures { table.new.cap ≡ most_entries }
{
    if payload.len() > 65536 {
        return 0;
    }
    match task {
        Task::Read => read_often(tables, payload, table, rounds),
        Task::Write => write_often(tables, payload, table, rounds),
    }
}

/// Reads the payload so many times into one message, and counts it. Making a message each time would fill its room once more.
fn read_often(tables: &DinTables, payload: &[u8], table: &mut Table, rounds: u32) -> u64
    requires payload { length payload.now ≤ 65536 }
    requires cap { table.old.cap ≡ most_entries }
    ensures { table.new.cap ≡ most_entries }
{
    let mut message = DinMessage::default();
    let mut count = 0_u64;
    for _ in 0..rounds {
        if read_din(tables, payload, table, &mut message).is_ok() {
            count = count.wrapping_add(1);
        }
    }
    count
}

fn write_often(tables: &DinTables, payload: &[u8], table: &mut Table, rounds: u32) -> u64
    requires payload { length payload.now ≤ 65536 }
    requires cap { table.old.cap ≡ most_entries }
    ensures { table.new.cap ≡ most_entries }
{
    din_codec::laws::messages_are_written();
    let mut message = DinMessage::default();
    match read_din(tables, payload, table, &mut message) {
        Ok(()) => write_rounds(tables, &message, table, rounds),
        Err(_) => 0,
    }
}

/// Writes the message in each round, and counts them.
fn write_rounds(tables: &DinTables, message: &DinMessage<'_>, table: &mut Table, rounds: u32) -> u64
    requires message { IsDinMessage message.now }
    requires cap { table.old.cap ≡ most_entries }
    ensures { table.new.cap ≡ most_entries }
{
    let mut room = [0; ROOM];
    let mut count = 0_u64;
    for _ in 0..rounds {
        if write_din(tables, message, &mut room, table).is_ok() {
            count = count.wrapping_add(1);
        }
    }
    count
}
