//! Texts of the negotiation, ISO 15118-2:2014 section 8.2: how many events they say, and where others are at fault.

ghost use Rattle.exi_schema.specs.Told.{schema_of};
ghost use Rattle.dialect_text.specs.Scanning.{standing_of, IsReady};

use crate::cases::{Case, all_hold};
use app_schema::negotiation;
use dialect_text::{DialectScanner, ScanFault};
use std::alloc::Global;

/// A text, and how many events it says, or the place of its fault.
struct Text(&'static str, Result<u32, u64>);

/// Whether this fault is answered once more.
fn is_again(scanner: &mut DialectScanner, place: u64) -> bool
    requires { IsReady (schema_of scanner.old.schema.now) scanner.old.text.now (standing_of scanner.old.phase scanner.old.elements) scanner.old.cursor scanner.old.fault }
{
    matches!(scanner.next(), Err(ScanFault::Place(again)) if again == place)
}

/// Scans up to the end or a fault, which is answered again: how many events are said, or the fault's place.
fn scanned(scanner: &mut DialectScanner) -> Option<Result<u32, u64>>
    requires { IsReady (schema_of scanner.old.schema.now) scanner.old.text.now (standing_of scanner.old.phase scanner.old.elements) scanner.old.cursor scanner.old.fault }
{
    for count in 0..1000 {
        match scanner.next() {
            Ok(Some(_)) => {}
            Ok(None) => return Some(Ok(count)),
            Err(ScanFault::Place(place)) if is_again(scanner, place) => return Some(Err(place)),
            Err(_) => return None,
        }
    }
    None
}

impl Case for Text {
    fn holds(&self, alloc: Global) -> bool {
        let schema = negotiation();
        let mut scanner = DialectScanner::new(alloc, self.0, &schema);
        scanned(&mut scanner) == Some(self.1)
    }
}

const TEXTS: [Text; 17] = [
    Text(
        "supportedAppProtocolRes{ResponseCode=OK_SuccessfulNegotiation}",
        Ok(6),
    ),
    Text(
        "supportedAppProtocolRes{ResponseCode=Failed_NoNegotiation SchemaID=7}",
        Ok(9),
    ),
    Text(
        "supportedAppProtocolRes{SchemaID=7 ResponseCode=Failed_NoNegotiation}",
        Ok(9),
    ),
    Text(
        "supportedAppProtocolReq{AppProtocol{ProtocolNamespace=\"\\u{1}\\\"\" VersionNumberMajor=4294967295 VersionNumberMinor=0 SchemaID=27 Priority=1}}",
        Ok(20),
    ),
    Text(
        "supportedAppProtocolReq{AppProtocol{} AppProtocol{}}",
        Ok(7),
    ),
    Text("supportedAppProtocolReq{}", Ok(3)),
    Text("x", Err(0)),
    Text("", Err(0)),
    Text("supportedAppProtocolRes{", Err(24)),
    Text("supportedAppProtocolRes{ResponseCode=Bad}", Err(37)),
    Text("supportedAppProtocolRes{ SchemaID=7}", Err(24)),
    Text("supportedAppProtocolRes{SchemaID=7  SchemaID=7}", Err(35)),
    Text("supportedAppProtocolRes{SchemaID=7 }", Err(35)),
    Text("supportedAppProtocolRes{SchemaID=7} ", Err(35)),
    Text("supportedAppProtocolRes{Priority=7}", Err(24)),
    Text("supportedAppProtocolRes{SchemaID=7,SchemaID=7}", Err(34)),
    Text(
        "supportedAppProtocolReq{AppProtocol{ProtocolNamespace=\"é\n\"}}",
        Err(56),
    ),
];

#[test]
fn texts_of_the_negotiation(rt: HostRuntime) {
    all_hold(&rt, rt.alloc(), &TEXTS);
}
