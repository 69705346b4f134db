//! Holds the codec of the negotiation against a file of vectors, and reads or writes its payloads so many times. The clock stands outside.
//!
//! `agree FILE` counts the lines that agree with the codec. `read ROUNDS FILE` reads each payload as a message of the negotiation, or has it refused;
//! `write ROUNDS FILE` writes each message that they spell; both print how often that was done. A line of the file is `ok HEX TREE`, a payload and
//! the text of its tree, or `no HEX CAUSE BIT`, a payload and its refusal, where `-` is no bytes.
#![tactic(auto)]

mod agreeing;
mod rounds;

use crate::agreeing::agreement_with;
use crate::rounds::{messages_of, payloads_of, read_rounds, write_rounds};
use anyhow::{Context, Result};
use app_protocol::Table;
use exi_documents::MOST_ENTRIES;
use row_texts::code_of;
use std::process::ExitCode;
use std::{env, fs};

fn main(rt: HostRuntime) -> Result<ExitCode> {
    let mut words = env::args(&rt)?.skip(1);
    let task = words.next().context("no task")?;
    if task.as_str() == "agree" {
        let file = words.next().context("no file")?;
        let text = fs::read_to_string(&rt, file.as_str())?;
        let agreement = agreement_with(rt.alloc(), text.as_str())?;
        println!(rt; "right {} wrong {}", agreement.right, agreement.wrong)?;
        return Ok(code_of(agreement.wrong));
    }
    let (Some(rounds), Some(file)) = (words.next(), words.next()) else {
        println!(rt; "words: agree FILE or read|write ROUNDS FILE")?;
        return Ok(ExitCode::from(2));
    };
    let rounds: u32 = rounds.as_str().parse()?;
    let text = fs::read_to_string(&rt, file.as_str())?;
    let payloads = payloads_of(rt.alloc(), text.as_str())?;
    let mut table = Table::make(rt.alloc(), MOST_ENTRIES)?;
    let count = if task.as_str() == "read" {
        read_rounds(&payloads, &mut table, rounds)
    } else {
        let messages = messages_of(rt.alloc(), &payloads, &mut table)?;
        write_rounds(&messages, &mut table, rounds)
    };
    println!(rt; "payloads {count}")?;
    Ok(ExitCode::SUCCESS)
}
