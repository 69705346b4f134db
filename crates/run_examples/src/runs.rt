//! The program's call over the real wire, with clients beside it.

use crate::client::{Bytes, Clients, Deed};
use crate::free::{free_port, loopback};
use crate::visited::Visited;
use net_wire::NetWire;
use plain_run::{Failing, Left, left_by};
use std::alloc::Global;
use std::net::{Net, TcpStream};
use std::random::RandomSource;
use std::test::*;
use std::time::Clock;

/// A station with two posts, until so many connections have ended, at whose second port another program may listen; what clients do there, and
/// what is left.
struct Visit {
    name: &'static str,
    is_taken: bool,
    sessions: u32,
    deeds: &'static [Deed],
    left: &'static str,
}

const VISITS: [Visit; 7] = [
    Visit {
        name: "the published request in one piece",
        is_taken: false,
        sessions: 1,
        deeds: &[
            Deed::Connect(1),
            Deed::Send(0, Bytes::Request),
            Deed::Await(0, 12),
            Deed::Close(0),
        ],
        left: "12 01fe80010000000480400040\n\
post 1 sessions 1 closed 0 causes 00008000\npost 2 sessions 0 closed 0 causes 00000000\nstatus 0\n",
    },
    Visit {
        name: "the published request in 42 pieces",
        is_taken: false,
        sessions: 1,
        deeds: &[
            Deed::Connect(1),
            Deed::Trickle(0, Bytes::Request),
            Deed::Await(0, 12),
            Deed::Close(0),
        ],
        left: "12 01fe80010000000480400040\n\
post 1 sessions 1 closed 0 causes 00008000\npost 2 sessions 0 closed 0 causes 00000000\nstatus 0\n",
    },
    Visit {
        name: "two clients at two posts, by turns",
        is_taken: false,
        sessions: 2,
        deeds: &[
            Deed::Connect(1),
            Deed::Connect(2),
            Deed::Send(0, Bytes::Half),
            Deed::Send(1, Bytes::Half),
            Deed::Rest(2),
            Deed::Send(0, Bytes::Rest),
            Deed::Await(0, 12),
            Deed::Send(1, Bytes::Rest),
            Deed::Await(1, 12),
            Deed::Send(0, Bytes::Setup),
            Deed::Send(1, Bytes::Setup),
            Deed::Await(0, 37),
            Deed::Await(1, 37),
            Deed::Close(0),
            Deed::Close(1),
        ],
        left: "37 01fe80010000000480400040\n37 01fe80010000000480400040\n\
post 1 sessions 1 closed 0 causes 00008000\npost 2 sessions 1 closed 0 causes 00008000\nstatus 0\n",
    },
    Visit {
        name: "one that says nothing holds nobody back, at its post or at the other",
        is_taken: false,
        sessions: 3,
        deeds: &[
            Deed::Connect(1),
            Deed::Rest(2),
            Deed::Connect(2),
            Deed::Send(1, Bytes::Request),
            Deed::Await(1, 12),
            Deed::Connect(1),
            Deed::Send(2, Bytes::Request),
            Deed::Await(2, 12),
            Deed::Await(0, 1),
            Deed::Close(1),
            Deed::Close(2),
        ],
        left: "0  ended\n12 01fe80010000000480400040\n12 01fe80010000000480400040\n\
post 1 sessions 2 closed 0 causes 00008000\npost 2 sessions 1 closed 0 causes 00008000\nstatus 0\n",
    },
    Visit {
        name: "half a frame, and a reset behind an answer that is not read, end their session alone",
        is_taken: false,
        sessions: 3,
        deeds: &[
            Deed::Connect(2),
            Deed::Send(0, Bytes::Request),
            Deed::Await(0, 12),
            Deed::Connect(1),
            Deed::Send(1, Bytes::Half),
            Deed::Rest(2),
            Deed::Close(1),
            Deed::Rest(2),
            Deed::Connect(1),
            Deed::Send(2, Bytes::Request),
            Deed::Rest(4),
            Deed::Close(2),
            Deed::Rest(2),
            Deed::Send(0, Bytes::Setup),
            Deed::Await(0, 37),
            Deed::Close(0),
        ],
        left: "37 01fe80010000000480400040\n0 \n0 \n\
post 1 sessions 2 closed 0 causes 00008000\npost 2 sessions 1 closed 0 causes 00008000\nstatus 0\n",
    },
    Visit {
        name: "a frame of another version ends its session, and the post serves the next one",
        is_taken: false,
        sessions: 2,
        deeds: &[
            Deed::Connect(1),
            Deed::Send(0, Bytes::OtherVersion),
            Deed::Await(0, 1),
            Deed::Connect(1),
            Deed::Send(1, Bytes::Request),
            Deed::Await(1, 12),
            Deed::Close(1),
        ],
        left: "0  ended\n12 01fe80010000000480400040\n\
post 1 sessions 2 closed 0 causes 00008008\npost 2 sessions 0 closed 0 causes 00000000\nstatus 0\n",
    },
    Visit {
        name: "a port that is taken is status 5",
        is_taken: true,
        sessions: 1,
        deeds: &[],
        left: "wire\nstatus 5\n",
    },
];

#[test]
fn clients_are_served(rt: HostRuntime) -> Result<(), Fail> {
    for visit in &VISITS {
        let left = left_behind(&rt, rt.alloc(), visit)?;
        assert_eq!(rt; left.as_str(), visit.left, "{}", visit.name);
    }
    Ok(())
}

/// What is left behind a visit.
fn left_behind<R: Net<Stream = TcpStream> + Clock + RandomSource>(
    rt: &R,
    alloc: Global,
    visit: &Visit,
) -> Result<String, Fail> {
    let ports = [free_port(rt)?, free_port(rt)?];
    let _listener = if visit.is_taken {
        Some(rt.bind(loopback(ports[1]))?)
    } else {
        None
    };
    let deeds = visit.deeds.to_vec(alloc)?;
    let clients = Clients::new(alloc, ports, deeds);
    let plan = plan_of(alloc, ports, visit.sessions)?;
    served(rt, alloc, plan.as_str(), clients)
}

/// Serves a plan over sockets with clients beside it: what they got, the output, and the status.
fn served<R: Net<Stream = TcpStream> + Clock + RandomSource>(
    rt: &R,
    alloc: Global,
    plan: &str,
    clients: Clients,
) -> Result<String, Fail> {
    let mut wire = Visited::new(rt, NetWire::new(rt, alloc), clients);
    let files = [("plan", plan.as_bytes())];
    let left = left_by(
        alloc,
        &["station", "plan"],
        &files,
        Failing::none(alloc),
        &mut wire,
    )?;
    told(alloc, &wire.clients, &left)
}

/// What clients got, the output and the status.
fn told(alloc: Global, clients: &Clients, left: &Left) -> Result<String, Fail> {
    let got = clients.report()?;
    let out = str::from_utf8(left.out.bytes())?;
    let number = left.status.number();
    Ok(format!(in alloc; "{got}{out}status {number}\n")?)
}

/// The plan of two posts at these ports.
fn plan_of(alloc: Global, ports: [u16; 2], sessions: u32) -> Result<String, Fail> {
    let [one, two] = ports;
    Ok(format!(in alloc; "sessions = {sessions}\n[[post]]\ntcp = {one}\n[[post]]\ntcp = {two}\n")?)
}
