//! Files that are read and written.

use charge_world::{Failed, Sink, Source};
use net_wire::{FileSource, TraceFile};
use std::fs;
use std::test::*;

/// Whether the file `plan`, `a = 1`, is read piece by piece, and not before it is begun.
fn is_read_in_pieces<F: Source>(files: &mut F) -> bool {
    let mut room = [0u8; 3];
    files.read(&mut room) == Err(Failed)
        && files.begin("no plan") == Err(Failed)
        && files.begin("plan") == Ok(())
        && files.read(&mut room) == Ok(3)
        && &room == b"a ="
        && files.read(&mut room) == Ok(2)
        && files.read(&mut room) == Ok(0)
}

#[test]
fn a_file_is_read_piece_by_piece(rt: HostRuntime) -> Result<(), Fail> {
    fs::write(&rt, "plan", "a = 1")?;
    let is_read = is_read_in_pieces(&mut FileSource::new(&rt, rt.alloc()));
    fs::remove_file(&rt, "plan")?;
    assert!(rt; is_read);
    Ok(())
}

/// Whether each of these is written.
fn are_written<K: Sink>(sink: &mut K, lines: &[&[u8]]) -> bool {
    for line in lines {
        if sink.write(line).is_err() {
            return false;
        }
    }
    true
}

#[test]
fn a_trace_is_made_at_the_first_write(rt: HostRuntime) -> Result<(), Fail> {
    let _ = fs::remove_file(&rt, "v2g.trace");
    let mut trace = TraceFile::new(&rt, "v2g.trace");
    assert!(rt; !fs::exists(&rt, "v2g.trace")?);
    assert!(rt; are_written(&mut trace, &[b"one ", b"two"]));
    assert_eq!(rt; fs::read_to_string(&rt, "v2g.trace")?.as_str(), "one two");
    fs::remove_file(&rt, "v2g.trace")?;
    assert!(rt; !are_written(&mut TraceFile::new(&rt, "/dev/full"), &[b"one"]));
    assert!(rt; !are_written(&mut TraceFile::new(&rt, "no folder/v2g.trace"), &[b"one"]));
    Ok(())
}
