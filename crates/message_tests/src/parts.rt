//! Reports whose bits were worked out by hand, read, written again, and refused at each kind of place.

ghost use Rattle.std.specs.Prelude.{◌≡◌, ◌≤◌, length};
ghost use Rattle.exi_documents.specs.Values.{most_entries};
ghost use Rattle.kind_laws.specs.Laws.{HasDocument};
ghost use Rattle.parts_examples.specs.Declarations.{report_schema};
ghost use Rattle.parts_examples.specs.Parts.{report_tree};

use crate::cases::{Case, all_hold};
use exi_documents::{MOST_ENTRIES, RefusalCause};
use exi_events::Table;
use message_parts::{Binary, Text};
use parts_examples::{
    Amount, Cause, DcSupply, Meter, Reading, Report, State, Stopped, Supply, names, read_report,
    report_schema, write_report,
};
use std::alloc::Global;

/// A report of every part but a correction, with two days.
const FULL: [u8; 53] = [
    0x80, 0x00, 0xe8, 0x15, 0x21, 0xbd, 0x98, 0x01, 0x80, 0x7f, 0x88, 0x04, 0x11, 0x58, 0x04, 0x3c,
    0x28, 0x81, 0x04, 0x04, 0x04, 0x04, 0x04, 0x01, 0x00, 0x7b, 0x1d, 0x10, 0x90, 0xa0, 0x8d, 0x06,
    0x10, 0x01, 0x20, 0x02, 0x80, 0x00, 0x7f, 0xff, 0x80, 0x84, 0x90, 0x03, 0x01, 0x41, 0x10, 0x00,
    0x40, 0x08, 0x87, 0xf9, 0x40,
];

/// A report of the parts that have to be there, with a correction.
const SHORT: [u8; 41] = [
    0x80, 0x1f, 0xe7, 0xff, 0xf8, 0x18, 0x04, 0x00, 0x00, 0x10, 0x00, 0x00, 0x00, 0x00, 0x7f, 0x87,
    0xff, 0xf8, 0x08, 0xff, 0xff, 0xff, 0xff, 0x83, 0x87, 0xff, 0xff, 0xff, 0xff, 0xff, 0xff, 0xff,
    0xfb, 0xf8, 0x03, 0x20, 0x50, 0x01, 0x80, 0x05, 0x00,
];

fn is_text(text: &Text<'_>, chars: &str) -> bool {
    match text {
        Text::Lent(lent) => lent.span().same_str(chars),
        Text::Written(written) => *written == chars,
    }
}

/// The numbers of the full report.
const METER: Meter = Meter {
    phase: 2,
    pulses: 300,
    energy: 70_000,
    total: 1_099_511_627_776,
    offset: -5,
    power: -1_234,
    reactive: 100_000,
    time: -1,
    valid: true,
    load: None,
};

const READING: Reading = Reading {
    scale: -128,
    value: 32_767,
};

const SUPPLY: Supply = Supply::Dc(DcSupply {
    voltage: 400,
    current: Some(20),
});

const CAUSE: Cause = Cause::Stopped(Stopped {
    state: State::Broken,
});

/// Whether these are the texts, the seal and the days of the full report.
fn has_texts(report: &Report<'_>) -> bool {
    let is_sealed = report
        .seal
        .span()
        .same(Binary::of_bytes(&[0x00, 0xff, 0x10]).span());
    let days = match report.days.as_slice() {
        [first, second] => first.hours.len() == 2 && second.hours.len() == 1,
        _ => false,
    };
    is_sealed
        && days
        && is_text(&report.place, "Hof")
        && matches!(&report.remark, Some(remark) if is_text(remark, "Hof"))
}

/// Whether these are the parts of the full report.
fn is_full(report: &Report<'_>) -> bool {
    report.number == 7
        && report.revision.is_none()
        && report.state == State::Charging
        && report.meter == METER
        && matches!(&report.amount, Amount::Reading(reading) if *reading == READING)
        && report.supply == SUPPLY
        && report.cause == Some(CAUSE)
        && has_texts(report)
}

/// Whether a report is written as this payload, and not in less room.
fn is_written(report: &Report<'_>, payload: &[u8], table: &mut Table) -> bool
    requires message { HasDocument report_schema (report_tree report.now) }
    requires payload { length payload.now ≤ 64 }
    requires some { 1 ≤ length payload.now }
    requires cap { table.old.cap ≡ most_entries }
{
    let mut room = [0; 64];
    let Ok(count) = write_report(report, &mut room, &report_schema(), table) else {
        return false;
    };
    if &room[..count as usize] != payload {
        return false;
    }
    let less = payload.len() - 1;
    write_report(report, &mut room[..less], &report_schema(), table).is_err()
}

/// A payload that is read, and whether it is the full report; it is written again as it was read.
struct Again(&'static [u8], bool);

impl Case for Again {
    fn holds(&self, alloc: Global) -> bool {
        let Ok(mut table) = Table::make(alloc, MOST_ENTRIES) else {
            return false;
        };
        if self.0.is_empty() || self.0.len() > 64 {
            return false;
        }
        match read_report(self.0, &report_schema(), &mut table) {
            Ok(report) => { is_full(&report) == self.1 && is_written(&report, self.0, &mut table) }
            Err(_) => false,
        }
    }
}

const AGAIN: [Again; 2] = [Again(&FULL, true), Again(&SHORT, false)];

/// A payload of at most 64 bytes, of which the one at this place is another, and how it is refused.
struct Changed(&'static [u8], usize, u8, RefusalCause, u32);

impl Case for Changed {
    fn holds(&self, alloc: Global) -> bool {
        let Ok(mut table) = Table::make(alloc, MOST_ENTRIES) else {
            return false;
        };
        if self.0.len() > 64 || self.1 >= 64 {
            return false;
        }
        let mut changed = [0; 64];
        changed[..self.0.len()].copy_from_slice(self.0);
        changed[self.1] = self.2;
        match read_report(&changed[..self.0.len()], &report_schema(), &mut table) {
            Ok(_) => false,
            Err(refusal) => refusal.cause == self.3 && refusal.bit == self.4,
        }
    }
}

const CHANGED: [Changed; 20] = [
    Changed(&FULL, 0, 0x00, RefusalCause::BadHeader, 0),
    Changed(&FULL, 1, 0x40, RefusalCause::UnknownElement, 8),
    Changed(&FULL, 1, 0xc0, RefusalCause::NoSuchCode, 8),
    Changed(&FULL, 1, 0x20, RefusalCause::Deviation, 10),
    Changed(&FULL, 2, 0xf0, RefusalCause::Deviation, 19),
    Changed(&FULL, 2, 0xf8, RefusalCause::NoSuchCode, 19),
    Changed(&FULL, 3, 0x5d, RefusalCause::TooLong, 22),
    Changed(&FULL, 7, 0x02, RefusalCause::TooLong, 57),
    Changed(&FULL, 11, 0x0c, RefusalCause::NoSuchValue, 92),
    Changed(&FULL, 12, 0x31, RefusalCause::NoSuchValue, 98),
    Changed(&FULL, 35, 0x00, RefusalCause::NoSuchIndex, 287),
    Changed(&FULL, 36, 0xc0, RefusalCause::Deviation, 288),
    Changed(&FULL, 36, 0xe0, RefusalCause::NoSuchCode, 288),
    Changed(
        &FULL,
        41,
        0x88,
        RefusalCause::OutOfProfile {
            name: names::SOLAR_SUPPLY,
        },
        331,
    ),
    Changed(&FULL, 41, 0x8c, RefusalCause::Abstract, 331),
    Changed(&FULL, 45, 0x40, RefusalCause::Abstract, 366),
    Changed(&FULL, 50, 0x07, RefusalCause::TooLong, 399),
    Changed(&FULL, 52, 0x60, RefusalCause::Deviation, 418),
    Changed(&SHORT, 5, 0x38, RefusalCause::OutOfRange, 21),
    Changed(&SHORT, 18, 0x10, RefusalCause::OutOfRange, 124),
];

#[test]
fn reports_are_read_written_and_refused(rt: HostRuntime) {
    all_hold(&rt, rt.alloc(), &AGAIN);
    all_hold(&rt, rt.alloc(), &CHANGED);
}
