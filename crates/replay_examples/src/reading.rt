//! Traces that are read, or refused at a line.

use std::alloc::Global;
use std::test::Fail;
use trace_reading::{TraceFault, read_trace};

/// How many entries a text tells, or the line at which it is refused.
fn entries_in(alloc: Global, text: &[u8]) -> Result<usize, u64> {
    match read_trace(alloc, text, 2) {
        Ok(entries) => Ok(entries.len()),
        Err(TraceFault::BadLine(line)) => Err(line),
        Err(TraceFault::Memory) => Err(0),
    }
}

#[test]
fn traces_are_read_or_refused_at_a_line(rt: HostRuntime) -> Result<(), Fail> {
    let rows: [(&[u8], Result<usize, u64>); 14] = [
        (b"v2g-trace 1\n", Ok(0)),
        (b"v2g-trace 1\nheard 0 tick\ndrove 2 open\nlost\n", Ok(3)),
        (
            b"v2g-trace 2\n1 heard 0 tick\n1 drove 2 open\n2 lost\n2 ended 1 11\n",
            Ok(4),
        ),
        (
            b"v2g-trace 2\n0 dialed 15118\n1 heard 5 1 plant renew\n",
            Ok(2),
        ),
        (b"", Err(1)),
        (b"v2g-trace 3\n", Err(1)),
        (b"v2g-trace 1", Err(1)),
        (b"v2g-trace 1\n\n", Err(2)),
        (b"v2g-trace 1\nheard 0 tick\nlost", Err(3)),
        (
            b"v2g-trace 1\nheard 0 over\ndrove 1 open\nheard 1 tick\n",
            Err(4),
        ),
        (b"v2g-trace 1\nheard 5 1 plant renew\n", Err(2)),
        (b"v2g-trace 1\nheard 0 tick\ndrove 3 open\n", Err(3)),
        (b"v2g-trace 2\nheard 0 tick\n", Err(2)),
        (b"v2g-trace 2\n1 heard 0 tick\n2 drove 1 open\n", Err(3)),
    ];
    for (text, wanted) in rows {
        assert_eq!(rt; entries_in(rt.alloc(), text), wanted);
    }
    Ok(())
}
