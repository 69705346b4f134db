//! What the tables of both dialects' messages share: values and enumerations that are alike, and the frame of a message.
//!
//! Proved: `numbers_are_those_of_names`: the values of an enumeration that both dialects number alike are told apart by their numbers.
#![tactic(auto)]

ghost use Rattle.std.specs.Prelude.{◌≡◌, ◌<◌, get_or, Bool, false, true, [], ◌∷◌};
ghost use Rattle.session_words.specs.declared.code.Notify.{Notify};
ghost use Rattle.session_words.specs.declared.code.Notify.TheVariants as notify;
ghost use Rattle.session_words.specs.declared.code.StatusCode.{StatusCode};
ghost use Rattle.session_words.specs.declared.code.StatusCode.TheVariants as status;
ghost use Rattle.session_words.specs.declared.mode.Mode.{Mode};
ghost use Rattle.session_words.specs.declared.mode.Mode.TheVariants as mode;
ghost use Rattle.message_tables.specs.Codes.{notify_names, notify_number, status_names, status_number, mode_names, mode_number, second_number};

/// Of the enumerations that both dialects number alike, each value is the name of its number, and there are no more numbers than names.
pub fn numbers_are_those_of_names()
    ensures notifications { (n : Notify) → get_or notify_names (notify_number n) notify.None ≡ n }
    ensures few_notifications { (n : Notify) → notify_number n < 3 }
    ensures status_codes { (c : StatusCode) → get_or status_names (status_number c) status.EvseNotReady ≡ c }
    ensures few_status_codes { (c : StatusCode) → status_number c < 12 }
    ensures modes { (m : Mode) → get_or mode_names (mode_number m) mode.AcSinglePhaseCore ≡ m }
    ensures few_modes { (m : Mode) → mode_number m < 6 }
    ensures seconds { (b : Bool) → get_or (false ∷ true ∷ []) (second_number b) false ≡ b }
    ensures few_seconds { (b : Bool) → second_number b < 2 }
{}
