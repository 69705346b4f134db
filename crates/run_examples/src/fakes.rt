//! The fakes in memory: each call once, and each failing call once.

use crate::events::{came, event};
use arrayvec::ArrayVec;
use charge_world::{
    Failed, Heard, MemorySink, MemorySource, MemoryWire, NamedFile, Order, Piece, PortPair, Ports,
    Scripted, Sink, Source, What, Wire,
};
use std::alloc::Global;
use std::test::*;

fn bytes_of(alloc: Global, text: &str) -> Result<Piece, Fail> {
    Ok(Piece::of(Vec::from_slice(alloc, text.as_bytes())?))
}

/// The file `plan` of five bytes, whose calls of these numbers fail.
fn source(alloc: Global, failing: &[u32]) -> Result<MemorySource, Fail> {
    let mut files = Vec::new(alloc);
    files.push(NamedFile {
        name: bytes_of(alloc, "plan")?,
        bytes: bytes_of(alloc, "a = 1")?,
    })?;
    Ok(MemorySource::of(files, failing.to_vec(alloc)?))
}

/// Whether a file is read room by room, and one that isn't there is empty.
fn is_read_room_by_room(files: &mut MemorySource) -> bool {
    let mut room = [0u8; 3];
    files.begin("plan") == Ok(())
        && files.read(&mut room) == Ok(3)
        && &room == b"a ="
        && files.read(&mut room) == Ok(2)
        && &room[..2] == b" 1".as_slice()
        && files.read(&mut room) == Ok(0)
        && files.begin("none") == Ok(())
        && files.read(&mut room) == Ok(0)
}

/// Whether the first and the third call fail, and the others don't.
fn fails_twice(files: &mut MemorySource) -> bool {
    let mut room = [0u8; 8];
    files.begin("plan") == Err(Failed)
        && files.begin("plan") == Ok(())
        && files.read(&mut room) == Err(Failed)
        && files.read(&mut room) == Ok(5)
}

/// Whether a sink whose second write fails keeps the others.
fn keeps_what_it_took(sink: &mut MemorySink) -> bool {
    sink.write(b"one ") == Ok(())
        && sink.write(b"two ") == Err(Failed)
        && sink.write(b"3") == Ok(())
        && sink.bytes() == b"one 3".as_slice()
}

#[test]
fn files_and_sinks(rt: HostRuntime) -> Result<(), Fail> {
    let alloc = rt.alloc();
    assert!(rt; is_read_room_by_room(&mut source(alloc, &[])?));
    assert!(rt; fails_twice(&mut source(alloc, &[1, 3])?));
    assert!(rt; keeps_what_it_took(&mut MemorySink::make(alloc, vec![in alloc; 2]?, 8)?));
    Ok(())
}

/// Post 1 without discovery.
fn post_1() -> Ports {
    let mut pairs = ArrayVec::new();
    pairs.push(PortPair { tcp: 15120, sdp: 0 });
    Ports::Posts { pairs, sessions: 1 }
}

/// A wire with this script, whose calls of these numbers fail, and with room for 16 entries of 64 bytes in all.
fn memory_wire(alloc: Global, script: Vec<Scripted>, failing: &[u32]) -> Result<MemoryWire, Fail> {
    Ok(MemoryWire::make(alloc, script, failing.to_vec(alloc)?, 16, 64)?)
}

/// Each call of a wire once, on post 1; true for each that didn't fail.
fn calls(wire: &mut MemoryWire) -> [bool; 6] {
    let started = wire.start(&post_1());
    let mut room = [0u8; 4096];
    [
        started.is_ok(),
        wire.next(5, &mut room).is_ok(),
        wire.send(1, b"\x01").is_ok(),
        wire.answer(1, b"\x02").is_ok(),
        wire.drive(1, Order::Open).is_ok(),
        wire.dial(15120).is_ok(),
    ]
}

/// What a wire with a post that came does, where the call of this number fails, if any has it.
fn called(alloc: Global, failing: &[u32]) -> Result<[bool; 6], Fail> {
    let script = vec![in alloc; came(alloc)]?;
    Ok(calls(&mut memory_wire(alloc, script, failing)?))
}

/// Whether each call fails alone.
fn each_fails_alone(alloc: Global) -> Result<bool, Fail> {
    for k in 0..6 {
        let mut wanted = [true; 6];
        wanted[k] = false;
        if called(alloc, &[k as u32 + 1])? != wanted {
            return Ok(false);
        }
    }
    Ok(true)
}

/// Whether each call of a wire is done once, and what was done is kept.
fn does_all(wire: &mut MemoryWire) -> bool {
    let are_done = calls(wire) == [true; 6];
    wire.end(1, 18);
    are_done && wire.untils() == [5].as_slice()
}

/// Events that a wire leaves out, and a tick.
fn unfit(alloc: Global) -> Result<Vec<Scripted>, Fail> {
    Ok(vec![in alloc;
        // of no post, and of a post that was not started
        event(alloc, What::Gone { post: 0 }),
        event(alloc, What::Gone { post: 2 }),
        // two bytes of which none is there
        event(alloc, What::Bytes { post: 1, n: 2 }),
        event(alloc, What::Tick),
    ]?)
}

/// Whether a wire hears a tick, and then that it is over.
fn only_ticks(wire: &mut MemoryWire) -> bool {
    let mut room = [0u8; 4096];
    wire.start(&post_1()) == Ok(())
        && matches!(
            wire.next(0, &mut room),
            Ok(Heard {
                at: 0,
                what: What::Tick
            })
        )
        && matches!(
            wire.next(0, &mut room),
            Ok(Heard {
                at: 0,
                what: What::Over
            })
        )
}

#[test]
fn wires(rt: HostRuntime) -> Result<(), Fail> {
    let alloc = rt.alloc();
    let mut wire = memory_wire(alloc, vec![in alloc; came(alloc)]?, &[])?;
    assert!(rt; does_all(&mut wire));
    assert_eq!(rt; wire.entries(alloc)?.len(), 6);
    assert!(rt; each_fails_alone(alloc)?);
    assert!(rt; only_ticks(&mut memory_wire(alloc, unfit(alloc)?, &[])?));
    Ok(())
}
