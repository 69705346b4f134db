//! The request of a profile.

ghost use Rattle.std.specs.Prelude.{◌≡◌, ◌≤◌, All, map, length};
ghost use Rattle.iso_message.specs.Documents.{IsWithin, PassesBytes};
ghost use Rattle.schedule_answers.specs.Requests as rule;
ghost use Rattle.schedule_answers.specs.Requests.{CanWrite, CanRequest, IsRequestOf};

use arrayvec::ArrayVec;
use iso_delivery::{ChargingProfile, PowerDeliveryReq, ProfileEntry};
use iso_message::{Body, BodyElement, BriefElement, IsoMessage};
use iso_parts::{ChargeProgress, Header};
use iso_values::physical::power_of;
use message_parts::Binary;
use schedules::{Profile, Step};
use session_words::Amount;

/// A step as it is written.
fn entry_of(step: Step) -> ProfileEntry
    requires { CanWrite step }
    ensures { result ≡ rule.entry_of step }
{
    ProfileEntry {
        charging_profile_entry_start: step.start,
        charging_profile_entry_max_power: power_of(Amount {
            size: step.watts,
            right: true,
        }),
        charging_profile_entry_max_number_of_phases_in_use: None,
    }
}

/// The steps as they are written.
fn entries_of(steps: &[Step]) -> ArrayVec<ProfileEntry, 24>
    requires few { length steps.now ≤ 24 }
    requires steps { All CanWrite steps.now }
    ensures { result.items ≡ map rule.entry_of steps.now }
{
    let mut entries = ArrayVec::new();
    for step in steps {
        entries.push(entry_of(*step));
    }
    entries
}

/// The identifier of no session: 8 bytes of 0.
pub fn no_session() -> &'static [u8]
    ensures { result.now ≡ rule.no_session }
{
    &[0, 0, 0, 0, 0, 0, 0, 0]
}

/// The identifier of a profile's tuple, of 8 bits.
fn tuple_of(profile: &Profile) -> u8
    ensures value { result ≡ profile.now.tuple }
    ensures bound { profile.now.tuple ≤ 255 }
{
    profile.tuple
}

/// The request of a profile.
fn message_of(profile: &Profile) -> IsoMessage<'static>
    requires { CanRequest profile.now }
    ensures message { IsRequestOf profile.now result }
    ensures tuple { profile.now.tuple ≤ 255 }
{
    IsoMessage {
        header: Header {
            session_id: Binary::of_bytes(no_session()),
            notification: None,
        },
        body: Body {
            element: Some(BodyElement::Brief(BriefElement::PowerDeliveryReq(PowerDeliveryReq {
                charge_progress: ChargeProgress::Start,
                sa_schedule_tuple_id: tuple_of(profile),
                charging_profile: Some(ChargingProfile {
                    profile_entry: entries_of(profile.steps.as_slice()),
                }),
                ev_power_delivery_parameter: None,
            }))),
        },
    }
}

/// The PowerDeliveryReq Start of a profile (ISO 15118-2:2014, 8.4.3.9), under the identifier of no session, which has 8 bytes of 0: its
/// tuple, from 1 on, and an entry for each of its 1 to 24 steps, which have less than 32,768,000 watts.
pub fn request_of(profile: &Profile) -> IsoMessage<'static>
    requires { CanRequest profile.now }
    ensures message { IsRequestOf profile.now result }
    ensures within { IsWithin result }
    ensures small { PassesBytes result 2048 → ⊥ }
{
    message_of(profile)
}
