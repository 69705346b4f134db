//! Payloads that spell no message, each with the first item that can't be taken.

ghost use Rattle.std.specs.Prelude.{◌≤◌, length};

use exi_documents::MOST_ENTRIES;
use iso_codec::{IsoMessage, IsoTables, Refusal, RefusalCause, Table, read_iso};
use iso_schema::names;
use std::alloc::Global;
use std::test::*;

/// How a payload is refused.
pub(crate) fn refusal_of(alloc: Global, payload: &[u8]) -> Result<Option<Refusal>, Fail>
    requires { length payload.now ≤ 65536 }
{
    let tables = IsoTables::make(alloc)?;
    let mut table = Table::make(alloc, MOST_ENTRIES)?;
    let mut message = IsoMessage::default();
    Ok(read_iso(&tables, payload, &mut table, &mut message).err())
}

/// How a payload in hexadecimal is refused.
fn refusal_of_text(alloc: Global, text: &str) -> Result<Option<Refusal>, Fail> {
    let payload = hex::decode(alloc, text)?;
    if payload.len() > 65536 {
        return Err(Fail::from("a long payload"));
    }
    refusal_of(alloc, payload.as_slice())
}

/// The first of these payloads that isn't refused for this cause, at its bit.
fn first_other(
    alloc: Global,
    rows: &[(&'static str, u32)],
    cause: RefusalCause,
) -> Result<Option<&'static str>, Fail> {
    for (text, bit) in rows {
        let wanted = Refusal { cause, bit: *bit };
        if refusal_of_text(alloc, text)? != Some(wanted) {
            return Ok(Some(text));
        }
    }
    Ok(None)
}

/// Payloads, each with the cause and the bit of what can't be taken.
const REFUSED: [(&'static str, RefusalCause, u32); 8] = [
    // a session setup without its last byte, one up to the length of SessionID, and one without it
    (
        "809802000000000000000011d0180004080c1014",
        RefusalCause::ShortInput,
        160,
    ),
    ("809802", RefusalCause::ShortInput, 18),
    ("809802004080c1014181c2", RefusalCause::ShortInput, 26),
    // a SessionID of 9 bytes, and the document number of no element
    ("80980240", RefusalCause::TooLong, 18),
    ("809602", RefusalCause::UnknownElement, 8),
    // MeteringReceiptReq, BodyElement, and no element of the schema
    (
        "809802000000000000000010f0",
        RefusalCause::OutOfProfile {
            name: names::METERING_RECEIPT_REQ,
        },
        94,
    ),
    ("80980200000000000000001020", RefusalCause::Abstract, 94),
    ("80980200000000000000001240", RefusalCause::Deviation, 94),
];

#[test]
fn payloads_are_refused_exactly(rt: HostRuntime) -> Result<(), Fail> {
    for (text, cause, bit) in REFUSED {
        assert_eq!(rt; first_other(rt.alloc(), &[(text, bit)], cause)?, None);
    }
    Ok(())
}

/// A session setup that is cut behind each of its bytes: refused at the first bit of the first item that isn't whole. Its items begin
/// at the bits 0, 8, 15 to 18, 26, 90, 91, 93, 94, 100 to 102, 110 and 158 to 161.
const CUT: [(&'static str, u32); 21] = [
    ("", 0),
    ("80", 8),
    ("8098", 16),
    ("809802", 18),
    ("80980200", 26),
    ("8098020000", 26),
    ("809802000000", 26),
    ("80980200000000", 26),
    ("8098020000000000", 26),
    ("809802000000000000", 26),
    ("80980200000000000000", 26),
    ("8098020000000000000000", 26),
    ("809802000000000000000011", 94),
    ("809802000000000000000011d0", 102),
    ("809802000000000000000011d018", 110),
    ("809802000000000000000011d01800", 110),
    ("809802000000000000000011d0180004", 110),
    ("809802000000000000000011d018000408", 110),
    ("809802000000000000000011d0180004080c", 110),
    ("809802000000000000000011d0180004080c10", 110),
    ("809802000000000000000011d0180004080c1014", 160),
];

#[test]
fn a_cut_payload_is_short_at_the_first_item_that_is_not_whole(rt: HostRuntime) -> Result<(), Fail> {
    assert_eq!(rt;
        first_other(rt.alloc(), &CUT, RefusalCause::ShortInput)?,
        None
    );
    Ok(())
}

/// A session setup with the escape in place of one of its event codes, and the bit at which that code begins.
const ESCAPES: [(&'static str, u32); 13] = [
    ("809902000000000000000011d0180004080c101400", 15),
    ("809882000000000000000011d0180004080c101400", 16),
    ("809842000000000000000011d0180004080c101400", 17),
    ("809802000000000000000031d0180004080c101400", 90),
    ("809802000000000000000019d0180004080c101400", 91),
    ("809802000000000000000015d0180004080c101400", 93),
    ("80980200000000000000001240180004080c101400", 94),
    ("809802000000000000000011d8180004080c101400", 100),
    ("809802000000000000000011d4180004080c101400", 101),
    ("809802000000000000000011d0180004080c101600", 158),
    ("809802000000000000000011d0180004080c101500", 159),
    ("809802000000000000000011d0180004080c101480", 160),
    ("809802000000000000000011d0180004080c101440", 161),
];

#[test]
fn an_escape_in_place_of_an_event_is_a_deviation(rt: HostRuntime) -> Result<(), Fail> {
    assert_eq!(rt;
        first_other(rt.alloc(), &ESCAPES, RefusalCause::Deviation)?,
        None
    );
    Ok(())
}
