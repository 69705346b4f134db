//! Wires call by call: two posts at once, a charger, discovery, a peer that reads nothing, and a car beside its station.

use crate::free::{free_port, free_udp_port};
use crate::scene::{Act, Call, Part, Places, Scene};
use net_wire::NetWire;
use std::alloc::Global;
use std::net::{Net, TcpStream};
use std::random::RandomSource;
use std::test::*;
use std::time::Clock;

/// What is done over two wires, which are not started at first, and what comes of it.
struct Row {
    name: &'static str,
    acts: &'static [Act<'static>],
    text: &'static str,
}

const ROWS: [Row; 6] = [
    Row {
        name: "two posts are served at once, where the first client says nothing at first",
        acts: &[
            Act::On(0, Call::Start(Part::Posts)),
            Act::Connect(0),
            Act::Hear(0),
            Act::Connect(1),
            Act::Say(1, b"two"),
            Act::Hear(0),
            Act::Hear(0),
            Act::On(0, Call::Send(2, b"answer")),
            Act::Read(1),
            Act::Say(0, b"late"),
            Act::Hear(0),
            Act::Leave(1),
            Act::Hear(0),
            Act::On(0, Call::Send(2, b"answer")),
            Act::On(0, Call::End(1)),
            Act::Read(0),
            Act::Hear(0),
        ],
        text: " started came 1 came 2 bytes 2 3 sent read 6 bytes 1 4 gone 2 not sent ended read 0 over",
    },
    Row {
        name: "a charger tells of the car and of orders",
        acts: &[
            Act::On(0, Call::Start(Part::Post)),
            Act::Connect(0),
            Act::HearAny(0),
            Act::HearAny(0),
            Act::HearAny(0),
            Act::HearAny(0),
            Act::HearAny(0),
            Act::On(0, Call::Close(1)),
            Act::HearAny(0),
            Act::On(0, Call::Close(2)),
        ],
        text: " started came 1 plant 1 Pilot(C) plant 1 Isolation(Invalid) plant 1 Paid plant 1 Isolation(Valid) drove \
plant 1 Feedback { closed: true } not drove",
    },
    Row {
        name: "a datagram is answered to its sender",
        acts: &[
            Act::On(0, Call::Start(Part::FoundPost)),
            Act::On(0, Call::Answer(1, b"nobody asked")),
            Act::Ask(b"ask"),
            Act::Hear(0),
            Act::On(0, Call::Answer(1, b"answer")),
            Act::Get,
        ],
        text: " started not answered datagram 1 3 answered got 6",
    },
    Row {
        name: "a peer that reads nothing fails a send",
        acts: &[
            Act::On(0, Call::Start(Part::Post)),
            Act::Connect(0),
            Act::Hear(0),
            Act::On(0, Call::Flood),
        ],
        text: " started came 1 not flooded",
    },
    Row {
        name: "a car dials when it is started",
        acts: &[
            Act::On(1, Call::Start(Part::Car)),
            Act::On(0, Call::Start(Part::Post)),
            Act::On(1, Call::Start(Part::Car)),
            Act::Hear(1),
            Act::Hear(0),
            Act::On(1, Call::Send(1, b"ask")),
            Act::Hear(0),
            Act::On(0, Call::Send(1, b"answer")),
            Act::Hear(1),
            Act::On(1, Call::Close(1)),
            Act::On(1, Call::Dial),
            Act::On(1, Call::End(1)),
            Act::Hear(0),
            Act::Hear(0),
            Act::Hear(1),
        ],
        text: " not started started started came 1 came 1 sent bytes 1 3 sent bytes 1 6 drove not dialed ended gone 1 over over",
    },
    Row {
        name: "a car asks for a port and dials it",
        acts: &[
            Act::On(1, Call::Start(Part::SeekingCar)),
            Act::On(0, Call::Start(Part::FoundPost)),
            Act::On(1, Call::Answer(1, b"ask")),
            Act::Hear(0),
            Act::On(0, Call::Answer(1, b"answer")),
            Act::Hear(1),
            Act::On(1, Call::Dial),
            Act::Hear(1),
            Act::Hear(0),
        ],
        text: " started started answered datagram 1 3 answered datagram 1 6 dialed came 1 came 1",
    },
];

/// Ports that nobody uses.
fn free_places<R: Net>(rt: &R) -> Result<Places, Fail> {
    let tcp = [free_port(rt)?, free_port(rt)?];
    let sdp = free_udp_port(rt)?;
    Ok(Places { tcp, sdp })
}

/// What comes of these acts.
fn played<R: Net<Stream = TcpStream> + Clock + RandomSource>(
    rt: &R,
    alloc: Global,
    acts: &[Act<'_>],
) -> Result<String, Fail> {
    let places = free_places(rt)?;
    let wires = vec![in alloc; NetWire::new(rt, alloc), NetWire::new(rt, alloc)]?;
    let mut scene = Scene::new(alloc, places, wires);
    scene.play(rt, acts)?;
    Ok(scene.text)
}

#[test]
fn wires_do_what_they_are_asked(rt: HostRuntime) -> Result<(), Fail> {
    for row in &ROWS {
        let text = played(&rt, rt.alloc(), row.acts)?;
        assert_eq!(rt; text.as_str(), row.text, "{}", row.name);
    }
    Ok(())
}
