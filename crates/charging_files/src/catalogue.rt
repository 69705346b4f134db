//! The keys of services, and of a catalogue.

ghost use Rattle.std.specs.Prelude.{◌≡◌, ◌==◌, ◌≤◌, IfOk, IfSome, Some, None, option_map, map, length, if◌then◌else◌};
ghost use Rattle.std.specs.Option.{option_or};
ghost use Rattle.toml.specs.View.{table_view};
ghost use Rattle.plan_keys.specs.Keys.{Reads, Says, table_of};
ghost use Rattle.plan_keys.specs.Faults.{AnswersBy, each_fault};
ghost use Rattle.charging_files.specs.CatalogueKeys.{set_tables, service_rules};
ghost use Rattle.charging_files.specs.Catalogues as file;
ghost use Rattle.charging_files.specs.Catalogues.{said_service_of, services_in, first_of, service_wrong, service_strange, catalogue_fault};
ghost use Rattle.service_spec.specs.Sets.{IsService};

use crate::sets::{known_sets, read_sets};
use plan_keys::{Keys, PlanFault, Wanted};
use service_spec::Service;
use std::alloc::Global;
use toml::{Table, Value};

/// What the keys of a service say.
#[derive(Clone, Copy)]
pub struct ServiceKeys<'a> {
    pub id: u16,
    /// Its sets.
    pub items: &'a [Value],
}

/// Reads the list of the sets of a service, which may be left out.
fn set_key<'a>(keys: &mut Keys<'a>) -> &'a [Value]
    ensures said { Says set_tables keys.old keys.new (map table_of result.now) }
    ensures few { length result.now ≤ 16 }
{
    if keys.find("set").is_none() {
        let none: &'a [Value] = &[];
        return keys.keep("set", Wanted::Between(0, 16, " tables"), Ok(none), none);
    }
    keys.tables("set", 0, 16)
}

/// Reads the keys of a service.
fn service_keys<'a>(keys: &mut Keys<'a>) -> ServiceKeys<'a>
    ensures read { Reads service_rules keys.old keys.new result }
    ensures few { length result.items.now ≤ 16 }
{
    ServiceKeys {
        id: keys.number("id", 0, 65_535, None) as u16,
        items: set_key(keys),
    }
}

/// Reads the service with this number. The first key that is wrong, of it, its sets and their parameters, is refused.
fn read_service<'a>(alloc: Global, number: u16, item: &'a Value) -> Result<Service<'a>, PlanFault>
    ensures said { IfOk result (λ s. said_service_of s ≡ file.service_in (table_of item.now)) }
    ensures wrong { AnswersBy (service_wrong number (table_of item.now)) result }
    ensures offered { IfOk result IsService }
{
    let place = format!(in alloc; "service.{number}.")?;
    let mut keys = Keys::of(item.as_table());
    let service = service_keys(&mut keys);
    keys.judged(alloc, place.as_str())?;
    let sets = read_sets(alloc, place.as_str(), service.items)?;
    Ok(Service {
        id: service.id,
        sets,
    })
}

/// What is kept where a service follows what was kept so far: the first of an identifier.
fn first<'a>(kept: Option<Service<'a>>, service: Service<'a>, id: u16) -> Option<Service<'a>>
    ensures said { option_map said_service_of result ≡ option_or (option_map said_service_of kept.entry)
        (if service.entry.id == id then Some (said_service_of service.entry) else None) }
    ensures offered { IfSome kept.entry IsService → IsService service.entry → IfSome result IsService }
{
    match kept {
        Some(kept) => Some(kept),
        None if service.id == id => Some(service),
        None => None,
    }
}

/// Reads the services, one after another, and keeps the first of an identifier. The first key that is wrong is refused.
fn read_services<'a>(
    alloc: Global,
    items: &'a [Value],
    id: u16,
) -> Result<Option<Service<'a>>, PlanFault>
    requires { length items.now ≤ 8 }
    ensures said { IfOk result (λ s. option_map said_service_of s ≡ first_of id (map file.service_in (map table_of items.now))) }
    ensures wrong { AnswersBy (each_fault service_wrong 1 (map table_of items.now)) result }
    ensures offered { IfOk result (λ s. IfSome s IsService) }
{
    let mut kept: Option<Service<'a>> = None;
    let mut number: u16 = 1;
    for item in items {
        let service = read_service(alloc, number, item)?;
        kept = first(kept, service, id);
        number += 1;
    }
    Ok(kept)
}

/// Refuses the least unknown key of the service with this number, or the first of its sets.
fn known_service(alloc: Global, number: u16, item: &Value) -> Result<(), PlanFault>
    ensures { AnswersBy (service_strange number (table_of item.now)) result }
{
    let place = format!(in alloc; "service.{number}.")?;
    let mut keys = Keys::of(item.as_table());
    let service = service_keys(&mut keys);
    keys.unknown(alloc, place.as_str())?;
    known_sets(alloc, place.as_str(), service.items)
}

/// Refuses the first unknown key of the services.
fn known_services(alloc: Global, items: &[Value]) -> Result<(), PlanFault>
    requires { length items.now ≤ 8 }
    ensures { AnswersBy (each_fault service_strange 1 (map table_of items.now)) result }
{
    let mut number: u16 = 1;
    for item in items {
        known_service(alloc, number, item)?;
        number += 1;
    }
    Ok(())
}

/// The first service of an identifier in the table of a catalogue, or the table's first fault (own). None where the catalogue has no such service.
pub fn service_in<'a>(
    alloc: Global,
    table: &'a Table,
    id: u16,
) -> Result<Option<Service<'a>>, PlanFault>
    ensures said { IfOk result (λ s. option_map said_service_of s ≡ first_of id (services_in (table_view table.now))) }
    ensures told { AnswersBy (catalogue_fault (table_view table.now)) result }
    ensures offered { IfOk result (λ s. IfSome s IsService) }
{
    let mut keys = Keys::of(Some(table));
    let items = keys.tables("service", 1, 8);
    keys.judged(alloc, "")?;
    let service = read_services(alloc, items, id)?;
    keys.unknown(alloc, "")?;
    known_services(alloc, items)?;
    Ok(service)
}
