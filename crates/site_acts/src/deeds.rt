//! How a post's act is done.

ghost use Rattle.std.specs.Prelude.{◌≡◌, ℕ, Bool, List, length};
ghost use Rattle.endpoint.specs.Calls.{entry_by, IsSendable};
ghost use Rattle.endpoint.specs.Calls.{MayTake as MayCall};
ghost use Rattle.station_spec.specs.Runs.{entry_of};
ghost use Rattle.site_posts.specs.Places.{done_place};
ghost use Rattle.site_acts.specs.Deeds.{act_of, IsFramed, MayTake};

use charge_world::Order;
use endpoint::Call;
use session_words::EndCause;
use site_posts::Place;

/// How a post's act is done, with the site's room.
#[derive(Drop)]
pub enum Deed {
    /// This datagram is sent.
    Answer([u8; 28]),
    /// This order is given.
    Give(Order),
    /// So many bytes at the front of the room are sent.
    Send(usize),
    /// The session ends by this cause.
    Finish(EndCause),
}

impl Deed {
    /// The call by which this is done. The bytes that are sent are the first of the room.
    pub fn call<'a>(&'a self, room: &'a [u8]) -> Call<'a>
        requires room { length room.now ≡ 1032 }
        requires framed { IsFramed self.now }
        ensures entry { (k : ℕ) (taken : Bool) → entry_by k result taken ≡ entry_of k (act_of room.now self.now) taken }
        ensures may { (taken : Bool) → MayCall result taken → MayTake self.now taken }
        ensures sendable { IsSendable result }
    {
        match self {
            Deed::Answer(datagram) => Call::Answer(datagram),
            Deed::Give(order) => Call::Give(*order),
            Deed::Send(n) => Call::Send(&room[..*n]),
            Deed::Finish(cause) => Call::End(cause.number()),
        }
    }
}

/// The post keeps that this was done, and taken or not.
pub fn keep(place: &mut Place, deed: &Deed, taken: bool)
    requires { MayTake deed.now taken }
    ensures { (room : List ℕ) → place.new ≡ done_place (act_of room deed.now) taken place.old }
{
    match deed {
        Deed::Answer(_) => place.answered(taken),
        Deed::Give(order) => place.gave(*order, taken),
        Deed::Send(_) => place.sent(taken),
        Deed::Finish(cause) => place.ended(*cause),
    }
}
