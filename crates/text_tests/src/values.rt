//! Each form of a value, and each fault with its place.

use crate::cases::{Case, all_hold};
use exi_schema::{Datatype, Declaration, RootOf, Schema};
use std::alloc::Global;
use value_text::{Awaited, ScanFault, Scanned, TextCursor};

const NAMES: [&'static str; 3] = ["Unit", "Units", "Value"];

const UNITS: [&'static str; 4] = ["OK", "OK_New", "W", "Wh"];

const NONE: [&'static str; 0] = [];

const VALUES: [&'static [&'static str]; 5] = [&NONE, &UNITS, &NONE, &NONE, &NONE];

const KINDS: [Declaration<'static>; 5] = [
    Declaration::Simple(Datatype::Bool),
    Declaration::Simple(Datatype::Named { count: 4 }),
    Declaration::Simple(Datatype::Signed { least: -5, most: 5 }),
    Declaration::Simple(Datatype::Binary { most: 2 }),
    Declaration::Simple(Datatype::Text { most: 3 }),
];

const ROOTS: [RootOf; 1] = [RootOf {
    number: 0,
    name: 0,
    kind: 0,
}];

/// The kind of a value, a text, what is taken at its front, the place behind it and what is left; or that nothing is, the place of the fault,
/// and no rest.
struct Front(u16, &'static str, &'static str, u64, &'static str);

/// Whether this is told of a value.
fn is_told(alloc: Global, scanned: &Scanned, wanted: &str) -> bool {
    matches!(format!(in alloc; "{scanned:?}"), Ok(told) if told.as_str() == wanted)
}

impl Case for Front {
    fn holds(&self, alloc: Global) -> bool {
        let schema = Schema {
            kinds: &KINDS,
            names: &NAMES,
            values: &VALUES,
            root_bits: 1,
            roots: &ROOTS,
        };
        let mut cursor = TextCursor::new(self.1);
        let Some(Declaration::Simple(datatype)) = schema.kinds.get(self.0 as usize) else {
            return false;
        };
        match cursor.take_value(alloc, &schema, self.0, *datatype) {
            Ok(scanned) => {
                is_told(alloc, &scanned, self.2) && cursor.place == self.3 && cursor.rest == self.4
            }
            Err(ScanFault::Place(place)) => self.2 == "none" && place == self.3,
            Err(ScanFault::Memory) => false,
        }
    }
}

const FRONTS: [Front; 45] = [
    Front(0, "true}", "Bool(true)", 4, "}"),
    Front(0, "false", "Bool(false)", 5, ""),
    Front(0, "tru", "none", 3, ""),
    Front(0, "trux", "none", 3, ""),
    Front(0, "True", "none", 0, ""),
    Front(0, "", "none", 0, ""),
    Front(1, "OK}", "Ordinal(0)", 2, "}"),
    Front(1, "OK_New ", "Ordinal(1)", 6, " "),
    Front(1, "OK_X", "none", 3, ""),
    Front(1, "Wh", "Ordinal(3)", 2, ""),
    Front(1, "Wx", "Ordinal(2)", 1, "x"),
    Front(1, "o", "none", 0, ""),
    Front(2, "0", "Number(0)", 1, ""),
    Front(2, "12x", "Number(12)", 2, "x"),
    Front(2, "-7 ", "Number(-7)", 2, " "),
    Front(2, "-", "none", 1, ""),
    Front(2, "-0", "none", 1, ""),
    Front(2, "007", "Number(0)", 1, "07"),
    Front(2, "+1", "none", 0, ""),
    Front(
        2,
        "98765432109876543210",
        "Number(98765432109876543210)",
        20,
        "",
    ),
    Front(
        2,
        "-987654321098765432109",
        "Number(-98765432109876543210)",
        21,
        "9",
    ),
    Front(2, "é", "none", 0, ""),
    Front(3, "", "Bytes([])", 0, ""),
    Front(3, "00ff}", "Bytes([0, 255])", 4, "}"),
    Front(3, "0a1b2c", "Bytes([10, 27, 44])", 6, ""),
    Front(3, "0g", "none", 1, ""),
    Front(3, "abc", "none", 3, ""),
    Front(3, "0A", "none", 1, ""),
    Front(3, "g", "Bytes([])", 0, "g"),
    Front(4, "\"\"", "Text(\"\")", 2, ""),
    Front(4, "\"abcd\" ", "Text(\"abcd\")", 6, " "),
    Front(4, "\"\\\"\\\\\"", "Text(\"\\\"\\\\\")", 6, ""),
    Front(4, "\"\\u{1f}\"", "Text(\"\\u{1f}\")", 8, ""),
    Front(4, "\"\\u{1}\"", "Text(\"\\u{1}\")", 7, ""),
    Front(4, "\"é🔌\"}", "Text(\"é🔌\")", 4, "}"),
    Front(4, "a", "none", 0, ""),
    Front(4, "\"a", "none", 2, ""),
    Front(4, "\"\\x\"", "none", 2, ""),
    Front(4, "\"\\u{20}\"", "none", 5, ""),
    Front(4, "\"\\u{01}\"", "none", 5, ""),
    Front(4, "\"\\u{1F}\"", "none", 5, ""),
    Front(4, "\"\\u{1f", "none", 6, ""),
    Front(4, "\"\\u1f\"", "none", 3, ""),
    Front(4, "\"é\n\"", "none", 2, ""),
    Front(4, "\"é\\", "none", 3, ""),
];

/// Which name is taken of a text and what is left; or the place of the fault, and no rest.
struct Named(&'static str, Result<usize, u64>, &'static str);

const AWAITED: [Awaited; 3] = [
    Awaited { name: 0, end: '=' },
    Awaited { name: 1, end: '{' },
    Awaited { name: 2, end: '=' },
];

impl Case for Named {
    fn holds(&self, _: Global) -> bool {
        let schema = Schema {
            kinds: &KINDS,
            names: &NAMES,
            values: &VALUES,
            root_bits: 1,
            roots: &ROOTS,
        };
        let mut cursor = TextCursor::new(self.0);
        match cursor.take_name(&schema, &AWAITED) {
            Ok(i) => self.1 == Ok(i) && cursor.rest == self.2,
            Err(place) => self.1 == Err(place),
        }
    }
}

const NAMED: [Named; 8] = [
    Named("Unit=W", Ok(0), "W"),
    Named("Units{}", Ok(1), "}"),
    Named("Unit{", Err(4), ""),
    Named("Units=", Err(5), ""),
    Named("Value=", Ok(2), ""),
    Named("Values", Err(5), ""),
    Named("x", Err(0), ""),
    Named("", Err(0), ""),
];

/// The characters of a cursor, and values as they are lent.
fn are_lent(alloc: Global) -> bool {
    let mut cursor = TextCursor::new("7");
    let Ok(bytes) = vec![in alloc; 0; 65537] else {
        return false;
    };
    cursor.peek() == Some('7')
        && cursor.next() == Some('7')
        && cursor.peek().is_none()
        && Scanned::Number(7).value().is_some()
        && Scanned::Bytes(bytes).value().is_none()
}

#[test]
fn forms_and_faults(rt: HostRuntime) {
    all_hold(&rt, rt.alloc(), &FRONTS);
    all_hold(&rt, rt.alloc(), &NAMED);
    assert!(rt; are_lent(rt.alloc()));
}
