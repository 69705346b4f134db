//! Reads files of vectors, payloads of ISO 15118-2 and of DIN SPEC 70121, and counts those that are answered as their line says.
//!
//! The words are pairs of a dialect and a file. A line `ok HEX TREE` is a payload and the text of its tree, for which the payload is
//! written; a line `no HEX CAUSE BIT` a payload with its refusal. `-` stands for no bytes. Each payload is also read as a message, which is
//! written again, or refused alike.
//!
//! A line `cut HEX N` is a payload of N bits: cut behind each of them, it is read as a message and printed alike. A line `codes HEX N` is a
//! payload in which each code of up to three bits, N in all, is put at each place: so each event code is also its escape.
#![tactic(auto)]

ghost use Rattle.std.specs.Prelude.{◌≤◌, length};

mod changes;
mod typed;

use crate::changes::{codes_alike, cuts_alike};
use crate::typed::Codecs;
use anyhow::{Context, Result, bail};
use message_trees::{
    MessageDialect, PrintFault, Refusal, RefusalCause, ScanFault, print_payload, scan_text,
};
use std::alloc::Global;
use std::process::ExitCode;
use std::{env, fs};

/// The most bytes of a payload.
const MOST_BYTES: usize = 65_536;

/// How many lines are payloads with a tree, are refused payloads, are payloads that are changed, and have another answer than they say.
#[derive(Clone, Copy, Debug, Default)]
struct Counts {
    printed: u64,
    refused: u64,
    changed: u64,
    wrong: u64,
}

impl Counts {
    /// One line more of this mark.
    fn add(&mut self, mark: &str) {
        match mark {
            "ok" => self.printed = self.printed.saturating_add(1),
            "no" => self.refused = self.refused.saturating_add(1),
            _ => self.changed = self.changed.saturating_add(1),
        }
    }
}

fn main(rt: HostRuntime) -> Result<ExitCode> {
    let mut words = env::args(&rt)?.skip(1);
    let codecs = Codecs::make(rt.alloc())?;
    let mut wrong = false;
    while let (Some(dialect), Some(file)) = (words.next(), words.next()) {
        let dialect = dialect_named(dialect.as_str()).context("no dialect")?;
        let text = fs::read(&rt, file.as_str())?;
        let counts = count(
            &rt,
            rt.alloc(),
            &codecs,
            dialect,
            str::from_utf8(text.as_slice())?,
        )?;
        println!(rt;
            "{} printed {} refused {} changed {} wrong {}",
            file.as_str(),
            counts.printed,
            counts.refused,
            counts.changed,
            counts.wrong
        )?;
        wrong |= counts.wrong > 0;
    }
    Ok(if wrong {
        ExitCode::from(1)
    } else {
        ExitCode::SUCCESS
    })
}

/// The dialect of a name.
fn dialect_named(name: &str) -> Option<MessageDialect> {
    match name {
        "iso" => Some(MessageDialect::Iso),
        "din" => Some(MessageDialect::Din),
        _ => None,
    }
}

/// The counts of a text of vectors. The first one that is answered otherwise is printed with its answer.
fn count(
    rt: &impl Print,
    alloc: Global,
    codecs: &Codecs,
    dialect: MessageDialect,
    text: &str,
) -> Result<Counts> {
    let mut counts = Counts::default();
    for line in text.lines() {
        let (mark, rest) = line.split_once(' ').context("a line without a payload")?;
        let (hex, _) = rest.split_once(' ').context("a line without an answer")?;
        let answer = answer(alloc, codecs, dialect, mark, hex)?;
        if answer.as_str() != line {
            if counts.wrong == 0 {
                println!(rt; "{line}")?;
                println!(rt; "gives {answer}")?;
            }
            counts.wrong = counts.wrong.saturating_add(1);
        } else {
            counts.add(mark);
        }
    }
    Ok(counts)
}

/// The line of this mark and this payload.
fn answer(
    alloc: Global,
    codecs: &Codecs,
    dialect: MessageDialect,
    mark: &str,
    hex: &str,
) -> Result<String> {
    let payload = hex::decode(alloc, if hex == "-" { "" } else { hex })?;
    if payload.len() > MOST_BYTES {
        bail!("a long payload");
    }
    let count = match mark {
        "cut" => cuts_alike(alloc, codecs, dialect, payload.as_slice())?,
        "codes" => codes_alike(alloc, codecs, dialect, payload.as_slice())?,
        _ => return read_alike(alloc, codecs, dialect, hex, payload.as_slice()),
    };
    Ok(format!(in alloc; "{mark} {hex} {count}")?)
}

/// The line of a payload: its text behind the payload that is written for the text, or its refusal.
fn read_alike(
    alloc: Global,
    codecs: &Codecs,
    dialect: MessageDialect,
    hex: &str,
    payload: &[u8],
) -> Result<String>
    requires { length payload.now ≤ 65536 }
{
    match print_payload(alloc, dialect, payload) {
        Ok(text) => {
            if !codecs.agree(alloc, dialect, payload, None)? {
                bail!("another message than its tree");
            }
            let written = written(alloc, dialect, text.as_str())?;
            Ok(format!(in alloc; "ok {written} {text}")?)
        }
        Err(PrintFault::Refused(refusal)) => {
            if !codecs.agree(alloc, dialect, payload, Some(refusal))? {
                bail!("another refusal of its message");
            }
            let Refusal { cause, bit } = refusal;
            let cause = cause_name(alloc, cause)?;
            Ok(format!(in alloc; "no {hex} {cause} {bit}")?)
        }
        Err(PrintFault::Memory) => bail!("no memory"),
    }
}

/// The name of a cause alone, without what it tells of an element.
fn cause_name(alloc: Global, cause: RefusalCause) -> Result<String> {
    Ok(match cause {
        RefusalCause::OutOfProfile { .. } => String::from_str(alloc, "OutOfProfile")?,
        cause => format!(in alloc; "{cause:?}")?,
    })
}

/// The payload that is written for a text.
fn written(alloc: Global, dialect: MessageDialect, text: &str) -> Result<String> {
    match scan_text(alloc, dialect, text) {
        Ok(piece) => Ok(hex::encode(alloc, piece.bytes())?),
        Err(ScanFault::Place(place)) => Ok(format!(in alloc; "fault {place}")?),
        Err(ScanFault::Memory) => bail!("no memory"),
    }
}
