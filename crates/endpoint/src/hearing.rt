//! What was heard.

ghost use Rattle.std.specs.Prelude.{◌≡◌, ◌≤◌, length, max};
ghost use Rattle.charge_world.specs.Outside.{HasCount, bytes_of};
ghost use Rattle.station_spec.specs.Blocks.{IsHearing, IsPlantEvent};
ghost use Rattle.endpoint.specs.Knowing.{nothing_heard, one_more};
ghost use Rattle.endpoint.specs.Rooms.{FitsIn};

use charge_world::{Heard, PlantEvent, What};

/// What an end heard so far.
#[derive(Drop)]
pub struct SoFar {
    /// The greatest moment, in milliseconds.
    pub moment: u64,
    /// How many hearings there were, a lost one counted. It stands still at the end of its type.
    pub hearing: u64,
}

impl SoFar {
    /// Nothing.
    pub fn nothing() -> SoFar
        ensures { result ≡ nothing_heard }
    {
        SoFar {
            moment: 0,
            hearing: 0,
        }
    }

    /// Counts a hearing at this moment. A clock that goes back stands still.
    pub fn count(&mut self, at: u64)
        ensures moment { self.new.moment ≡ max self.old.moment at }
        ensures hearing { self.new.hearing ≡ one_more self.old.hearing }
    {
        self.moment = self.moment.max(at);
        self.lose();
    }

    /// Counts a lost hearing.
    pub fn lose(&mut self)
        ensures moment { self.new.moment ≡ self.old.moment }
        ensures hearing { self.new.hearing ≡ one_more self.old.hearing }
    {
        self.hearing = self.hearing.saturating_add(1);
    }
}

/// The bytes that came with what was heard: the first of the room.
pub fn bytes_heard(what: What, room: &[u8]) -> &[u8]
    requires room { FitsIn what (length room.now) }
    requires count { HasCount what }
    ensures bytes { result.now ≡ bytes_of what room.now }
    ensures short { length result.now ≤ 4096 }
{
    match what {
        What::Bytes { post: _, n } | What::Datagram { post: _, n } => &room[..n as usize],
        What::Came { .. } | What::Gone { .. } | What::Plant { .. } | What::Tick | What::Over =>
            &room[..0],
    }
}

/// What was heard is within its types. It does nothing: each number is looked at for the prover, which so knows its bound.
pub fn bound_heard(heard: &Heard, room: &[u8])
    requires room { FitsIn heard.now.what (length room.now) }
    requires count { HasCount heard.now.what }
    ensures { IsHearing heard.now (bytes_of heard.now.what room.now) }
{
    let _at = heard.at;
    match &heard.what {
        What::Came { post: _, token } => {
            let _token = *token;
        }
        What::Plant { post: _, event } => bound_event(event),
        What::Bytes { .. } | What::Gone { .. } | What::Datagram { .. } | What::Tick | What::Over =>
            {}
    }
}

/// The amounts of an event of the charger are within their types. It does nothing, likewise.
pub fn bound_event(event: &PlantEvent)
    ensures { IsPlantEvent event.now }
{
    if let PlantEvent::Measured { voltage, current } = event {
        let _voltage = voltage.get();
        let _current = current.get();
    }
}
