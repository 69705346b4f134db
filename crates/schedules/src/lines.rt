//! The lines.

ghost use Rattle.std.specs.Prelude.{◌≡◌, ◌++◌, ◌<◌, OnOk, IfOk, string_bytes};
ghost use Rattle.schedules.specs.Offers.{IsCalendar};
ghost use Rattle.schedules.specs.Lines.{step_line, step_lines, profile_line, profile_text, IsOfferText};

use crate::offer::offer_of;
use crate::power::{Calendar, Profile, Step};
use std::alloc::{AllocError, Global};

/// The line of a step.
fn line_of(alloc: Global, step: Step) -> Result<String, AllocError>
    ensures { IfOk result (λ line. string_bytes line ≡ step_line step) }
{
    let Step { start, watts } = step;
    format!(in alloc; "{start} {watts}\n")
}

/// Puts a line for each step behind a text.
fn add_steps(alloc: Global, text: &mut String, steps: &[Step]) -> Result<(), AllocError>
    ensures { OnOk result (string_bytes text.new ≡ string_bytes text.old ++ step_lines steps.now) }
{
    for step in steps {
        let line = line_of(alloc, *step)?;
        text.push_str(line.as_str())?;
    }
    Ok(())
}

/// The lines of what a station offers at a moment of a day, by its calendar.
pub fn offer_lines(alloc: Global, calendar: &Calendar, moment: u32) -> Result<String, AllocError>
    requires calendar { IsCalendar calendar.now.entries.items }
    requires moment { moment < 86400 }
    ensures { IfOk result (λ text. IsOfferText calendar.now.entries.items moment (string_bytes text)) }
{
    let offer = offer_of(calendar.entries.as_slice(), moment);
    let mut text = String::new(alloc);
    add_steps(alloc, &mut text, offer.as_slice())?;
    Ok(text)
}

/// The first line of a profile: its tuple, how many steps it has, and its energy in watt-hours, rounded down.
fn first_line(alloc: Global, profile: &Profile) -> Result<String, AllocError>
    ensures { IfOk result (λ line. string_bytes line ≡ profile_line profile.now) }
{
    let tuple = profile.tuple;
    let entries = profile.steps.len();
    let energy = profile.energy / 3600;
    format!(in alloc; "tuple {tuple} entries {entries} energy {energy}\n")
}

/// The lines of a profile.
pub fn profile_lines(alloc: Global, profile: &Profile) -> Result<String, AllocError>
    ensures { IfOk result (λ text. string_bytes text ≡ profile_text profile.now) }
{
    let mut text = first_line(alloc, profile)?;
    add_steps(alloc, &mut text, profile.steps.as_slice())?;
    Ok(text)
}
