//! That what is wanted and the payload decide what the command `pick` leaves. Each of these functions does nothing: its contract is the law.

ghost use Rattle.std.specs.Prelude.{◌≡◌, ◌⊎◌, ℕ, List};
ghost use Rattle.command_status.specs.declared.status.Status.TheVariants as status;
ghost use Rattle.command_status.specs.declared.status.Status.{Status as AnyStatus};
ghost use Rattle.command_status.specs.Told.{SinkTold};
ghost use Rattle.payload_commands.specs.Picking.{PickLeaves};
ghost use Rattle.payload_commands.specs.PickFates.{Fate, IsFate, Follows};

use iso_codec::laws::messages_and_refusals;
use service_messages::one_offer;
use service_spec::{one_choice, one_want};

/// A word and the hexadecimal text of a payload have one fate at most.
pub fn one_fate_of_wants()
    ensures { (want hex : List ℕ) (one other : Fate) → IsFate want hex one → IsFate want hex other → one ≡ other }
{
    messages_and_refusals();
    one_offer();
    one_choice();
    one_want();
}

/// What the command leaves is the fate of what is wanted and of the payload, but for want of memory: so the status is 12 exactly where the payload's message
/// offers no set as it is wanted, 4 exactly where the payload is refused, and 2 exactly where the word spells no pairs.
pub fn fates_of_wants_are_followed()
    ensures { (s : AnyStatus) (want hex : List ℕ) (before after : SinkTold) (fate : Fate) → PickLeaves s want hex before after → IsFate want hex fate
        → Follows fate s before after ⊎ (s ≡ status.NoMemory) }
{
    one_fate_of_wants();
}
