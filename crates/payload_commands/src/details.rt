//! The line of a service of the catalogue in a file.

ghost use Rattle.std.specs.Prelude.{◌≡◌, ◌⊎◌, ◌++◌, ℕ, List, IfOk, IfErr, IfSome, MatchResult, codes, string_bytes};
ghost use Rattle.hex.specs.Hex.{encode_lower};
ghost use Rattle.plan_keys.specs.declared.fault.PlanFault.TheVariants as faults;
ghost use Rattle.plan_files.specs.FileTexts.{IsBeginning, CountsFault};
ghost use Rattle.service_spec.specs.Sets.{IsService};
ghost use Rattle.payload_commands.specs.Detailing as rule;
ghost use Rattle.payload_commands.specs.Detailing.{IsLineOf, IsNoLine, IsDetailed, IsDetailedFrom, IsDetailedIn, IsDetailFault, IsFaultFrom, IsFileFault};

use charge_world::Source;
use charging_files::{Service, document, service_in};
use plan_files::{PlanFileFault, TextFault, text_in};
use plan_keys::{Key, LONGEST, PlanFault, Wanted};
use service_messages::{DetailFault, payload_of, payloads_offer_catalogues};
use std::alloc::{AllocError, Global};

/// The fault of a catalogue whose payload is too long.
fn too_long(alloc: Global) -> PlanFault
    ensures { (result ≡ faults.Memory) ⊎ (result ≡ rule.too_long) }
{
    match Key::at(
        alloc,
        "",
        "bytes",
        Wanted::Said("at most 65536 in the payload"),
    ) {
        Ok(key) => PlanFault::OverLimit(key),
        Err(_) => PlanFault::Memory,
    }
}

/// The line of a payload.
fn line_of(alloc: Global, payload: &[u8]) -> Result<String, AllocError>
    ensures { IfOk result (λ line. string_bytes line ≡ encode_lower payload.now ++ codes "\n") }
{
    let mut line = hex::encode(alloc, payload)?;
    line.push('\n')?;
    Ok(line)
}

/// The line of a service.
fn service_line(alloc: Global, service: &Option<Service<'_>>, id: u16) -> Result<String, PlanFault>
    requires { IfSome service.now IsService }
    ensures line { IfOk result (λ line. IsLineOf id service.now (string_bytes line)) }
    ensures fault { IfErr result (IsNoLine id service.now) }
{
    payloads_offer_catalogues();
    match payload_of(alloc, service, id) {
        Ok(payload) => Ok(line_of(alloc, payload.as_slice())?),
        Err(DetailFault::Long) => Err(too_long(alloc)),
        Err(DetailFault::Memory) => Err(PlanFault::Memory),
    }
}

/// The line of the first service of an identifier that a text says as a catalogue, or of there being none.
fn detail_of(alloc: Global, text: &[u8], id: u16) -> Result<String, PlanFault>
    ensures line { IfOk result (λ line. IsDetailed id text.now (string_bytes line)) }
    ensures fault { IfErr result (IsDetailFault id text.now) }
{
    let table = document(alloc, text)?;
    let service = service_in(alloc, &table, id)?;
    service_line(alloc, &service, id)
}

/// The same of the text that begins with these bytes, and is these where they are no more than a file may have.
fn detail_from(alloc: Global, bytes: &[u8], id: u16) -> Result<String, PlanFault>
    ensures line { IfOk result (λ line. IsDetailedFrom id bytes.now (string_bytes line)) }
    ensures fault { IfErr result (λ fault. (text : List ℕ) → IsBeginning text bytes.now 65537 → IsDetailFault id text fault) }
{
    detail_of(alloc, bytes, id)
}

/// The same, with its fault as that of a file.
fn line_from(alloc: Global, bytes: &[u8], id: u16) -> Result<String, PlanFileFault>
    ensures line { IfOk result (λ line. IsDetailedFrom id bytes.now (string_bytes line)) }
    ensures fault { IfErr result (IsFaultFrom id bytes.now) }
{
    match detail_from(alloc, bytes, id) {
        Ok(line) => Ok(line),
        Err(fault) => Err(PlanFileFault::Refused(fault)),
    }
}

/// The same of the file of that name.
pub(crate) fn detail_in<F: Source>(
    alloc: Global,
    name: &str,
    id: u16,
    files: &mut F,
) -> Result<String, PlanFileFault>
    ensures line { IfOk result (λ line. IsDetailedIn id (F.left files.new) (F.holds files.old name.now) (string_bytes line)) }
    ensures fault { IfErr result (IsFileFault id (F.left files.new) (F.holds files.old name.now)) }
    ensures faults { MatchResult result (λ _. F.faults files.new ≡ F.faults files.old) (CountsFault PlanFileFault.Unread (F.faults files.old) (F.faults files.new)) }
    ensures holds { (other : List ℕ) → F.holds files.new other ≡ F.holds files.old other }
{
    match text_in(alloc, files, name, LONGEST) {
        Ok(bytes) => line_from(alloc, &bytes, id),
        Err(TextFault::Unread) => Err(PlanFileFault::Unread),
        Err(TextFault::Memory) => Err(PlanFileFault::Refused(PlanFault::Memory)),
    }
}
