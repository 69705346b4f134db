//! The keys of parameters.

ghost use Rattle.std.specs.Prelude.{◌≡◌, ◌≤◌, ℕ, List, All, IsTrue, IfOk, map, length};
ghost use Rattle.service_spec.specs.Services.{content_of, said_of};
ghost use Rattle.service_spec.specs.Texts.{is_a_name};
ghost use Rattle.service_spec.specs.Wants.{IsValue, IsPair};
ghost use Rattle.plan_keys.specs.Keys.{Reads, Says, table_of};
ghost use Rattle.plan_keys.specs.Faults.{AnswersBy, each_fault};
ghost use Rattle.charging_files.specs.CatalogueKeys.{name_rule, value_rule, parameter_rules};
ghost use Rattle.charging_files.specs.Catalogues.{parameter_in, parameter_wrong, parameter_strange};

use crate::forms;
use arrayvec::ArrayVec;
use plan_keys::{Keys, PlanFault, Wanted, Wrong};
use service_spec::Parameter;
use std::alloc::Global;
use toml::Value;

/// Reads the name of a parameter.
fn name_key<'a>(keys: &mut Keys<'a>) -> &'a str
    ensures said { Says name_rule keys.old keys.new result.now }
    ensures name { IsTrue (is_a_name result.now) }
{
    let otherwise: &'a str = "_";
    let judged: Result<&'a str, Wrong> = match keys.find("name") {
        Some(value) => forms::name_of(value),
        None => Err(Wrong::Missing),
    };
    keys.keep(
        "name",
        Wanted::Said("1 to 64 letters, digits or _"),
        judged,
        otherwise,
    )
}

/// Reads the value of a parameter.
fn value_key<'a>(keys: &mut Keys<'a>) -> service_spec::Value<'a>
    ensures said { Says value_rule keys.old keys.new (content_of result) }
    ensures value { IsValue result }
{
    let judged: Result<service_spec::Value<'a>, Wrong> = match keys.find("value") {
        Some(value) => forms::value_of(value),
        None => Err(Wrong::Missing),
    };
    let wanted = Wanted::Said(
        "true or false, a number of 32 bits, or at most 64 characters without \" and ;",
    );
    keys.keep("value", wanted, judged, service_spec::Value::Truth(false))
}

/// Reads a parameter.
fn parameter_keys<'a>(keys: &mut Keys<'a>) -> Parameter<'a>
    ensures read { Reads parameter_rules keys.old keys.new result }
    ensures pair { IsPair result }
{
    Parameter {
        name: name_key(keys),
        value: value_key(keys),
    }
}

/// Reads the parameter with this number behind a place. Its first key that is wrong is refused.
fn read_parameter<'a>(
    alloc: Global,
    before: &str,
    number: u16,
    item: &'a Value,
) -> Result<Parameter<'a>, PlanFault>
    ensures said { IfOk result (λ p. said_of p ≡ parameter_in (table_of item.now)) }
    ensures wrong { AnswersBy (parameter_wrong before.now number (table_of item.now)) result }
    ensures pair { IfOk result IsPair }
{
    let place = format!(in alloc; "{before}param.{number}.")?;
    let mut keys = Keys::of(item.as_table());
    let parameter = parameter_keys(&mut keys);
    keys.judged(alloc, place.as_str())?;
    Ok(parameter)
}

/// Reads the parameters of a set behind a place, one after another. The first key that is wrong is refused.
pub(crate) fn read_parameters<'a>(
    alloc: Global,
    before: &str,
    items: &'a [Value],
) -> Result<ArrayVec<Parameter<'a>, 16>, PlanFault>
    requires { length items.now ≤ 16 }
    ensures said { IfOk result (λ ps. map said_of ps.items ≡ map parameter_in (map table_of items.now)) }
    ensures wrong { AnswersBy (each_fault (parameter_wrong before.now) 1 (map table_of items.now)) result }
    ensures pairs { IfOk result (λ ps. All IsPair ps.items) }
{
    let mut parameters = ArrayVec::new();
    let mut number: u16 = 1;
    for item in items {
        let parameter = read_parameter(alloc, before, number, item)?;
        parameters.push(parameter);
        number += 1;
    }
    Ok(parameters)
}

/// Refuses the least unknown key of the parameter with this number behind a place.
fn known_parameter(alloc: Global, before: &str, number: u16, item: &Value) -> Result<(), PlanFault>
    ensures { AnswersBy (parameter_strange before.now number (table_of item.now)) result }
{
    let place = format!(in alloc; "{before}param.{number}.")?;
    let mut keys = Keys::of(item.as_table());
    let _parameter = parameter_keys(&mut keys);
    keys.unknown(alloc, place.as_str())
}

/// Refuses the least unknown key of the first parameter of a set that has one.
pub(crate) fn known_parameters(
    alloc: Global,
    before: &str,
    items: &[Value],
) -> Result<(), PlanFault>
    requires { length items.now ≤ 16 }
    ensures { AnswersBy (each_fault (parameter_strange before.now) 1 (map table_of items.now)) result }
{
    let mut number: u16 = 1;
    for item in items {
        known_parameter(alloc, before, number, item)?;
        number += 1;
    }
    Ok(())
}
