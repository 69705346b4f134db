//! How a car's act is done.

ghost use Rattle.std.specs.Prelude.{◌≡◌, ℕ, Bool, List, length, true};
ghost use Rattle.endpoint.specs.Calls.{entry_by, IsSendable};
ghost use Rattle.endpoint.specs.Calls.{MayTake as MayCall};
ghost use Rattle.car_spec.specs.Acting.{acted};
ghost use Rattle.car_spec.specs.Steps.{Spoken, entry_of};
ghost use Rattle.evcc_machine.specs.Views.{IsBy};
ghost use Rattle.evcc_machine.specs.declared.event.Done.TheVariants.{Sought};
ghost use Rattle.car_acts.specs.Deeds.{act_of, is_seek, IsFramed, MayTake, noted_by};

use crate::driver::{Driver, report_at};
use charge_world::Order;
use endpoint::Call;
use evcc_machine::Done;
use session_words::EndCause;

/// How a car's act is done, with the car's room.
#[derive(Drop)]
pub enum Deed {
    /// This port is dialed.
    Dial(u16),
    /// This order is given.
    Give(Order),
    /// So many bytes at the front of the room are sent.
    Say(usize),
    /// The car ends by this cause.
    Finish(EndCause),
    /// This discovery request is sent.
    Seek([u8; 10]),
}

impl Deed {
    /// The call by which this is done. The bytes that are sent are the first of the room.
    pub fn call<'a>(&'a self, room: &'a [u8]) -> Call<'a>
        requires room { length room.now ≡ 1032 }
        requires framed { IsFramed self.now }
        ensures entry { (spoken : Spoken) (taken : Bool) → entry_by 1 result taken ≡ entry_of (act_of room.now spoken self.now) taken }
        ensures may { (taken : Bool) → MayCall result taken → MayTake self.now taken }
        ensures sendable { IsSendable result }
    {
        match self {
            Deed::Dial(port) => Call::Dial(*port),
            Deed::Give(order) => Call::Give(*order),
            Deed::Say(n) => Call::Send(&room[..*n]),
            Deed::Finish(cause) => Call::End(cause.number()),
            Deed::Seek(datagram) => Call::Answer(datagram),
        }
    }

    /// What was done.
    fn done(&self) -> Done
        ensures by { (room : List ℕ) (spoken : Spoken) → IsBy result (act_of room spoken self.now) }
        ensures sought { result ≡ Sought → is_seek self.now ≡ true }
    {
        match self {
            Deed::Dial(_) => Done::Dialed,
            Deed::Give(order) => Done::Gave(*order),
            Deed::Say(_) => Done::Said,
            Deed::Finish(_) => Done::Ended,
            Deed::Seek(_) => Done::Sought,
        }
    }
}

/// The car reports where it ends.
fn note(driver: &mut Driver, deed: &Deed)
    ensures report { driver.new.report ≡ noted_by deed.now driver.old.car driver.old.report }
    ensures car { driver.new.car ≡ driver.old.car }
    ensures plan { driver.new.plan ≡ driver.old.plan }
{
    if let Deed::Finish(cause) = deed {
        driver.report = Some(report_at(&driver.car, *cause));
    }
}

/// The car keeps that this was done, and taken or not.
pub fn keep(driver: &mut Driver, deed: &Deed, taken: bool)
    requires { is_seek deed.now ≡ true → driver.old.car.agenda.seeks ≡ true }
    ensures car { (room : List ℕ) (spoken : Spoken) → driver.new.car ≡ acted (act_of room spoken deed.now) taken driver.old.car }
    ensures report { driver.new.report ≡ noted_by deed.now driver.old.car driver.old.report }
    ensures plan { driver.new.plan ≡ driver.old.plan }
{
    note(driver, deed);
    driver.car.did(deed.done(), taken);
}
