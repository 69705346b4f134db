//! One end of a connection: a station or a car.

use crate::bounded::Bounded;
use anyhow::Result;
use charge_world::Wire;
use net_wire::NetWire;
use plain_run::{Failing, Status, left_by};
use std::alloc::Global;
use std::net::{Net, TcpStream};
use std::random::RandomSource;
use std::time::Clock;

/// A station, or a car.
#[derive(Clone, Copy)]
pub(crate) enum End {
    Station,
    Car,
}

impl End {
    /// The end whose command this word is.
    pub(crate) fn of(word: &str) -> Option<End> {
        match word {
            "station" => Some(End::Station),
            "car" => Some(End::Car),
            _ => None,
        }
    }

    /// The word of its command.
    pub(crate) fn word(self) -> &'static str {
        match self {
            End::Station => "station",
            End::Car => "car",
        }
    }
}

/// What an end prints over the loopback network by the plan of this text, and whether its time was up. Behind the lines of a station stands
/// whether its trace replays to itself.
pub(crate) fn printed_by<R: Net<Stream = TcpStream> + Clock + RandomSource>(
    rt: &R,
    alloc: Global,
    end: End,
    plan: &str,
) -> Result<String> {
    printed_over(
        alloc,
        end,
        ("plan", plan.as_bytes()),
        &mut Bounded::new(NetWire::new(rt, alloc)),
    )
}

/// What an end prints over a wire.
fn printed_over<W: Wire + Drop>(
    alloc: Global,
    end: End,
    plan: (&str, &[u8]),
    wire: &mut Bounded<W>,
) -> Result<String> {
    let words = [end.word(), "plan"];
    let left = left_by(alloc, &words, &[plan], Failing::none(alloc), wire)?;
    let time = if wire.is_cut() { "time up\n" } else { "" };
    let replayed = match end {
        End::Station => replayed(alloc, plan, left.trace.bytes(), wire)?,
        End::Car => "",
    };
    lines(alloc, left.out.bytes(), time, replayed)
}

/// Whether a trace replays to itself by this plan. It leaves the wire alone.
fn replayed<W: Wire>(
    alloc: Global,
    plan: (&str, &[u8]),
    trace: &[u8],
    wire: &mut W,
) -> Result<&'static str> {
    let words = ["replay", "plan", "trace"];
    let left = left_by(
        alloc,
        &words,
        &[plan, ("trace", trace)],
        Failing::none(alloc),
        wire,
    )?;
    Ok(if left.status == Status::Done && left.trace.bytes() == trace {
        "trace replayed to itself\n"
    } else {
        "trace replayed otherwise\n"
    })
}

/// An output, and lines behind it.
fn lines(alloc: Global, out: &[u8], time: &str, replayed: &str) -> Result<String> {
    let out = str::from_utf8(out)?;
    Ok(format!(in alloc; "{out}{time}{replayed}")?)
}
