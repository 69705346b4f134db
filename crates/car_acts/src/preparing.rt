//! The frames of what a car says, made with its codecs in a room.

ghost use Rattle.std.specs.Prelude.{◌≡◌, ◌≤◌, ℕ, List, length, take, Some};
ghost use Rattle.session_words.specs.Plans.{IsOfferOnce};
ghost use Rattle.v2gtp_frames.specs.Frames.{frame};
ghost use Rattle.car_codec.specs.Requests.{IsAsked};
ghost use Rattle.car_spec.specs.Codecs.{codecs};
ghost use Rattle.car_spec.specs.States.{first};
ghost use Rattle.evcc_machine.specs.Views.{spoken_of};
ghost use Rattle.car_acts.specs.Deeds.{IsFrameOf, Prepares};
ghost use Rattle.car_acts.specs.Sound.{CanSay};

use crate::deeds::Deed;
use car_codec::CarCodec;
use charge_world::Dialect;
use endpoint::put_header;
use evcc_machine::{Car, Spoken, Todo};
use sdp_discovery::{SdpRequest, write_request};
use session_words::{CarPlan, Request};

/// Writes the frame of an offer to the front of a room, and answers its number of bytes.
fn frame_offer<C: CarCodec>(codec: &mut C, dialects: &[Dialect], room: &mut [u8]) -> usize
    requires room { length room.old ≡ 1032 }
    requires once { IsOfferOnce dialects.now }
    ensures least { 8 ≤ result }
    ensures most { result ≤ 1032 }
    ensures framed { (payload : List ℕ) × C.offers dialects.now payload × (take result room.new ≡ frame payload) }
{
    let n = codec.offer(dialects, &mut room[8..]) as usize;
    put_header(room, n);
    n + 8
}

/// Writes the frame of a request to the front of a room, and answers its number of bytes.
fn frame_request<C: CarCodec>(
    codec: &mut C,
    dialect: Dialect,
    request: &Request,
    room: &mut [u8],
) -> usize
    requires room { length room.old ≡ 1032 }
    requires asked { IsAsked dialect request.now }
    ensures least { 8 ≤ result }
    ensures most { result ≤ 1032 }
    ensures framed { (payload : List ℕ) × C.encodes dialect request.now payload × (take result room.new ≡ frame payload) }
{
    let n = codec.encode(dialect, request, &mut room[8..]) as usize;
    put_header(room, n);
    n + 8
}

/// Writes the frame of what is said to the front of a room, and answers its number of bytes.
fn speak<C: CarCodec>(codec: &mut C, plan: &CarPlan, spoken: &Spoken, room: &mut [u8]) -> usize
    requires room { length room.old ≡ 1032 }
    requires once { IsOfferOnce plan.now.dialects.items }
    requires can { CanSay (Some (spoken_of spoken.now)) }
    ensures least { 8 ≤ result }
    ensures most { result ≤ 1032 }
    ensures spoken { IsFrameOf (codecs C.offers C.responds C.reads C.encodes) plan.now (spoken_of spoken.now) (take result room.new) }
{
    match spoken {
        Spoken::Offer => frame_offer(codec, plan.dialects.as_slice(), room),
        Spoken::Asked { dialect, request } => frame_request(codec, *dialect, request, room),
    }
}

/// How what a car does first is done, if there is something to do.
pub fn prepare<C: CarCodec>(
    codec: &mut C,
    plan: &CarPlan,
    car: &Car,
    room: &mut [u8],
) -> Option<Deed>
    requires room { length room.old ≡ 1032 }
    requires once { IsOfferOnce plan.now.dialects.items }
    requires can { CanSay car.now.agenda.spoken }
    ensures { Prepares (codecs C.offers C.responds C.reads C.encodes) plan.now (first car.now.agenda) room.new result }
{
    match car.first() {
        None => None,
        Some(Todo::Call(port)) => Some(Deed::Dial(port)),
        Some(Todo::Drive(order)) => Some(Deed::Give(order)),
        Some(Todo::Speak(spoken)) => Some(Deed::Say(speak(codec, plan, spoken, room))),
        Some(Todo::Finish(cause)) => Some(Deed::Finish(cause)),
        Some(Todo::Inquire) => Some(Deed::Seek(write_request(&SdpRequest { tls: false }))),
    }
}
