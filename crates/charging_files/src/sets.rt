//! The keys of sets.

ghost use Rattle.std.specs.Prelude.{◌≡◌, ◌≤◌, ℕ, List, All, IfOk, map, length};
ghost use Rattle.service_spec.specs.Services.{said_set_of};
ghost use Rattle.plan_keys.specs.Keys.{Reads, Says, table_of};
ghost use Rattle.plan_keys.specs.Faults.{AnswersBy, each_fault};
ghost use Rattle.charging_files.specs.CatalogueKeys.{set_id_rule, set_rules};
ghost use Rattle.charging_files.specs.Catalogues.{set_in, set_wrong, set_strange};
ghost use Rattle.service_spec.specs.Sets.{IsOffered};

use crate::forms;
use crate::parameters::{known_parameters, read_parameters};
use arrayvec::ArrayVec;
use plan_keys::{Keys, PlanFault, Wanted, Wrong};
use service_spec::ParameterSet;
use std::alloc::Global;
use toml::Value;

/// What the keys of a set say.
#[derive(Clone, Copy)]
pub struct SetKeys<'a> {
    pub id: i16,
    /// Its parameters.
    pub items: &'a [Value],
}

/// Reads the identifier of a set.
fn id_key(keys: &mut Keys<'_>) -> i16
    ensures { Says set_id_rule keys.old keys.new result }
{
    let judged = match keys.find("id") {
        Some(value) => forms::short_of(value),
        None => Err(Wrong::Missing),
    };
    keys.keep("id", Wanted::Said("-32768 to 32767"), judged, 0)
}

/// Reads the keys of a set.
fn set_keys<'a>(keys: &mut Keys<'a>) -> SetKeys<'a>
    ensures read { Reads set_rules keys.old keys.new result }
    ensures few { length result.items.now ≤ 16 }
{
    SetKeys {
        id: id_key(keys),
        items: keys.tables("param", 1, 16),
    }
}

/// Reads the set with this number behind a place. Its first key that is wrong is refused.
fn read_set<'a>(
    alloc: Global,
    before: &str,
    number: u16,
    item: &'a Value,
) -> Result<ParameterSet<'a>, PlanFault>
    ensures said { IfOk result (λ s. said_set_of s ≡ set_in (table_of item.now)) }
    ensures wrong { AnswersBy (set_wrong before.now number (table_of item.now)) result }
    ensures offered { IfOk result IsOffered }
{
    let place = format!(in alloc; "{before}set.{number}.")?;
    let mut keys = Keys::of(item.as_table());
    let set = set_keys(&mut keys);
    keys.judged(alloc, place.as_str())?;
    let parameters = read_parameters(alloc, place.as_str(), set.items)?;
    Ok(ParameterSet {
        id: set.id,
        parameters,
    })
}

/// Reads the sets of a service behind a place, one after another. The first key that is wrong is refused.
pub(crate) fn read_sets<'a>(
    alloc: Global,
    before: &str,
    items: &'a [Value],
) -> Result<ArrayVec<ParameterSet<'a>, 16>, PlanFault>
    requires { length items.now ≤ 16 }
    ensures said { IfOk result (λ sets. map said_set_of sets.items ≡ map set_in (map table_of items.now)) }
    ensures wrong { AnswersBy (each_fault (set_wrong before.now) 1 (map table_of items.now)) result }
    ensures offered { IfOk result (λ sets. All IsOffered sets.items) }
{
    let mut sets = ArrayVec::new();
    let mut number: u16 = 1;
    for item in items {
        let set = read_set(alloc, before, number, item)?;
        sets.push(set);
        number += 1;
    }
    Ok(sets)
}

/// Refuses the least unknown key of the set with this number behind a place, or of its first parameter that has one.
fn known_set(alloc: Global, before: &str, number: u16, item: &Value) -> Result<(), PlanFault>
    ensures { AnswersBy (set_strange before.now number (table_of item.now)) result }
{
    let place = format!(in alloc; "{before}set.{number}.")?;
    let mut keys = Keys::of(item.as_table());
    let set = set_keys(&mut keys);
    keys.unknown(alloc, place.as_str())?;
    known_parameters(alloc, place.as_str(), set.items)
}

/// Refuses the first unknown key of the sets of a service.
pub(crate) fn known_sets(alloc: Global, before: &str, items: &[Value]) -> Result<(), PlanFault>
    requires { length items.now ≤ 16 }
    ensures { AnswersBy (each_fault (set_strange before.now) 1 (map table_of items.now)) result }
{
    let mut number: u16 = 1;
    for item in items {
        known_set(alloc, before, number, item)?;
        number += 1;
    }
    Ok(())
}
