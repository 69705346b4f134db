//! The frames of what a post says, made with the codecs of its site in a room.

ghost use Rattle.std.specs.Prelude.{◌≡◌, ◌≤◌, ℕ, List, length, take, Some};
ghost use Rattle.v2gtp_frames.specs.Frames.{frame};
ghost use Rattle.post_spec.specs.Codecs.{codecs};
ghost use Rattle.station_spec.specs.States.{first};
ghost use Rattle.station_spec.specs.Next.{IsSpoken};
ghost use Rattle.secc_machine.specs.Views.{spoken_of};
ghost use Rattle.site_codec.specs.Replies.{IsGiven};
ghost use Rattle.site_posts.specs.Sound.{CanSay};
ghost use Rattle.site_acts.specs.Deeds.{Prepares};

use crate::deeds::Deed;
use charge_world::Dialect;
use endpoint::put_header;
use secc_machine::{Post, Spoken, Todo};
use session_words::Reply;
use site_codec::Codec;

/// Writes the frame of a reply to the front of a room, and answers its number of bytes.
fn frame_reply<C: Codec>(codec: &mut C, dialect: Dialect, reply: &Reply, room: &mut [u8]) -> usize
    requires room { length room.old ≡ 1032 }
    requires given { IsGiven C.reads dialect reply.now }
    ensures least { 8 ≤ result }
    ensures most { result ≤ 1032 }
    ensures framed { (payload : List ℕ) × C.encodes dialect reply.now payload × (take result room.new ≡ frame payload) }
{
    let n = codec.encode(dialect, reply, &mut room[8..]) as usize;
    put_header(room, n);
    n + 8
}

/// Writes the frame of a response to the front of a room, and answers its number of bytes.
fn frame_response(payload: &[u8], room: &mut [u8]) -> usize
    requires room { length room.old ≡ 1032 }
    requires short { length payload.now ≤ 4 }
    ensures least { 8 ≤ result }
    ensures most { result ≤ 1032 }
    ensures framed { take result room.new ≡ frame payload.now }
{
    let n = payload.len();
    room[8..8 + n].copy_from_slice(payload);
    put_header(room, n);
    n + 8
}

/// Writes the frame of what is said to the front of a room, and answers its number of bytes.
fn speak<C: Codec>(codec: &mut C, spoken: &Spoken, room: &mut [u8]) -> usize
    requires room { length room.old ≡ 1032 }
    requires can { CanSay C.reads (Some (spoken_of spoken.now)) }
    ensures least { 8 ≤ result }
    ensures most { result ≤ 1032 }
    ensures spoken { IsSpoken (codecs C.negotiates C.reads C.encodes) (spoken_of spoken.now) (take result room.new) }
{
    match spoken {
        Spoken::Response(payload) => frame_response(payload.as_slice(), room),
        Spoken::Said { dialect, reply } => frame_reply(codec, *dialect, reply, room),
    }
}

/// How what a post does first is done, if there is something to do.
pub(crate) fn prepare<C: Codec>(codec: &mut C, post: &Post, room: &mut [u8]) -> Option<Deed>
    requires room { length room.old ≡ 1032 }
    requires can { CanSay C.reads post.now.agenda.reply }
    ensures { Prepares (codecs C.negotiates C.reads C.encodes) (first post.now.agenda) room.new result }
{
    match post.first() {
        None => None,
        Some(Todo::Tell(datagram)) => Some(Deed::Answer(datagram)),
        Some(Todo::Give(order)) => Some(Deed::Give(order)),
        Some(Todo::Say(spoken)) => Some(Deed::Send(speak(codec, spoken, room))),
        Some(Todo::Finish(cause)) => Some(Deed::Finish(cause)),
    }
}
