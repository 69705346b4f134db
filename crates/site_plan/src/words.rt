//! The words of plans.

ghost use Rattle.std.specs.Prelude.{◌≡◌, ◌≤◌, map, option_map, IfSome, Ok, Some, codes};
ghost use Rattle.charge_world.specs.declared.offer.Dialect.TheVariants.{Din};
ghost use Rattle.session_words.specs.Modes.{speaks_din, CanSpeakDin};
ghost use Rattle.session_words.specs.Plans.{IsOffer};
ghost use Rattle.toml.specs.Data.{string};
ghost use Rattle.toml.specs.View.{view};
ghost use Rattle.plan_keys.specs.Keys.{IsAscii, word_says, ascii, Says};
ghost use Rattle.site_plan.specs.Keys as spec;
ghost use Rattle.site_plan.specs.Keys.{mode_rule, stop_rule, dialects_rule};

use arrayvec::ArrayVec;
use charge_world::{Dialect, Tenths};
use plan_keys::{Keys, Wanted, Wrong, list_of};
use session_words::{EvseText, Mode, Stop};
use toml::Value;

/// The names of the modes.
fn mode_names() -> &'static [&'static str]
    ensures { map (λ w. w.now) result.now ≡ spec.mode_names }
{
    &[
        "AC_single_phase_core",
        "AC_three_phase_core",
        "DC_core",
        "DC_extended",
        "DC_combo_core",
        "DC_unique",
    ]
}

/// The name of a mode in plans.
pub fn mode_name(mode: Mode) -> &'static str
    ensures { word_says spec.mode_names spec.modes (string result.now) ≡ Ok mode }
{
    match mode {
        Mode::AcSinglePhaseCore => "AC_single_phase_core",
        Mode::AcThreePhaseCore => "AC_three_phase_core",
        Mode::DcCore => "DC_core",
        Mode::DcExtended => "DC_extended",
        Mode::DcComboCore => "DC_combo_core",
        Mode::DcUnique => "DC_unique",
    }
}

/// The modes in the same order.
const MODES: [Mode; 6] = [
    Mode::AcSinglePhaseCore,
    Mode::AcThreePhaseCore,
    Mode::DcCore,
    Mode::DcExtended,
    Mode::DcComboCore,
    Mode::DcUnique,
];

/// The mode of a plan, or the default.
pub(crate) fn mode(keys: &mut Keys<'_>, default: Mode) -> Mode
    ensures { Says (mode_rule default) keys.old keys.new result }
{
    keys.word("mode", mode_names(), &MODES, Some(default), default)
}

/// The way to stop of a plan.
pub(crate) fn stop(keys: &mut Keys<'_>) -> Stop
    ensures { Says stop_rule keys.old keys.new result }
{
    let ways = [Stop::Terminate, Stop::Pause];
    let usual = Stop::Terminate;
    keys.word("stop", &["terminate", "pause"], &ways, Some(usual), usual)
}

/// The names of the dialects that go with a mode.
fn dialect_names(mode: Mode) -> &'static [&'static str]
    ensures { map (λ w. w.now) result.now ≡ spec.dialect_names (speaks_din mode) }
{
    if mode.can_speak_din() {
        &["iso", "din"]
    } else {
        &["iso"]
    }
}

/// The dialects that go with a mode.
#[tactic(auto, using(crate::proofs::Offers::both, crate::proofs::Offers::alone))]
fn all_of(mode: Mode) -> ArrayVec<Dialect, 2>
    ensures value { result.items ≡ spec.dialects_of (speaks_din mode) }
    ensures fits { IsOffer mode result.items }
{
    if mode.can_speak_din() {
        list_of(&[Dialect::Iso, Dialect::Din])
    } else {
        list_of(&[Dialect::Iso])
    }
}

/// The dialect at a place of a list, where it goes with the mode.
fn dialect_at(mode: Mode, list: &Value, place: usize) -> Option<Dialect>
    ensures value { result ≡ spec.dialect_at (speaks_din mode) (view list.now) place }
    ensures din { result ≡ Some Din → CanSpeakDin mode }
{
    let name = list.get(place)?.as_str()?;
    if name == "iso" {
        Some(Dialect::Iso)
    } else if name == "din" && mode.can_speak_din() {
        Some(Dialect::Din)
    } else {
        None
    }
}

/// The dialects of a list of one or two, each once.
#[tactic(auto, using(crate::proofs::Offers::pair, crate::proofs::Offers::alone))]
fn offer_of(mode: Mode, list: &Value) -> Option<ArrayVec<Dialect, 2>>
    ensures value { option_map (λ v. v.items) result ≡ spec.offer_of (speaks_din mode) (view list.now) }
    ensures fits { IfSome result (λ v. IsOffer mode v.items) }
{
    let first = dialect_at(mode, list, 0)?;
    if list.get(1).is_none() {
        return Some(list_of(&[first]));
    }
    let second = dialect_at(mode, list, 1)?;
    if list.get(2).is_some() || first == second {
        return None;
    }
    Some(list_of(&[first, second]))
}

/// The dialects, or all that go with the mode.
pub(crate) fn dialects(keys: &mut Keys<'_>, mode: Mode) -> ArrayVec<Dialect, 2>
    ensures said { Says (dialects_rule mode) keys.old keys.new result.items }
    ensures fits { IsOffer mode result.items }
{
    let judged = match keys.find("dialects") {
        Some(list) => offer_of(mode, list).ok_or(Wrong::BadValue),
        None => Ok(all_of(mode)),
    };
    let wanted = Wanted::Words(
        "a list of one or more of ",
        dialect_names(mode),
        ", each once",
    );
    keys.keep("dialects", wanted, judged, all_of(mode))
}

/// An EVSEID in ISO, or that of no operator.
#[tactic(auto, using(crate::proofs::Offers::code_points_fit))]
pub(crate) fn evse_id(keys: &mut Keys<'_>) -> EvseText
    ensures said { Says (ascii (codes "evse_id") 7 37 (codes "ZZ00000")) keys.old keys.new result }
    ensures fits { IsAscii 7 37 result }
{
    let text = keys.ascii("evse_id", 7, 37, "ZZ00000");
    EvseText::of(text).unwrap()
}

/// So many tenths, or the default.
pub(crate) fn tenths(keys: &mut Keys<'_>, name: &'static str, default: u64) -> Tenths
    requires { default ≤ 30000 }
    ensures { Says (spec.tenths name.now default) keys.old keys.new result }
{
    Tenths::exactly(keys.number(name, 0, 30000, Some(default)) as u16)
}
