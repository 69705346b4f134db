//! A trace that is replayed by hand.

ghost use Rattle.std.specs.Prelude.{◌≡◌};
ghost use Rattle.replay_wire.specs.Replays.{AllCanBeHeard};

use charge_world::{Entry, Failed, Heard, Order, PlantEvent, Ports, What, Wire};
use replay_wire::{Recorded, ReplayWire};
use std::marker::Brand;
use std::process::Abort;
use std::test::Fail;
use trace_files::trace_of;

const TRACE: &[u8] =
    b"v2g-trace 1\nheard 5000 1 plant emergency\nfailed drove 1 open\nended 1 11\nheard 5100 1 bytes 0102\ndrove 1 open\n";

/// Orders open at each hearing of a trace, where the first order fails.
fn orders_open<K: Recorded>(rt: &impl Abort, trace: Vec<Entry>) -> Result<(), Fail>
    requires trace { trace.items ≡ K.entries }
    requires heard { AllCanBeHeard 1 trace.items }
{
    let mut wire = ReplayWire::<K>::make(trace, 1);
    let mut room = [0u8; 4096];
    assert_eq!(rt; wire.start(&Ports::Car { tcp: 1, sdp: 0 }), Ok(()));
    assert_eq!(rt; wire.drive(1, Order::Open), Ok(()));
    let emergency = What::Plant {
        post: 1,
        event: PlantEvent::Emergency,
    };
    assert_eq!(rt;
        wire.next(6000, &mut room),
        Ok(Heard {
            at: 5000,
            what: emergency
        })
    );
    assert_eq!(rt; wire.drive(1, Order::Open), Err(Failed));
    wire.end(1, 11);
    assert_eq!(rt; wire.drive(1, Order::Open), Ok(()));
    assert_eq!(rt;
        wire.next(6000, &mut room),
        Ok(Heard {
            at: 5100,
            what: What::Bytes { post: 1, n: 2 }
        })
    );
    assert_eq!(rt; &room[..3], b"\x01\x02\x00".as_slice());
    assert_eq!(rt; wire.send(1, b"abc"), Ok(()));
    assert_eq!(rt; wire.answer(1, b"abc"), Ok(()));
    for _ in 0..2 {
        assert_eq!(rt;
            wire.next(6000, &mut room),
            Ok(Heard {
                at: 5100,
                what: What::Over
            })
        );
    }
    assert_eq!(rt; wire.entries(), 10);
    wire.replays();
    Ok(())
}

#[test]
fn a_call_fails_by_its_mark_alone(rt: HostRuntime) -> Result<(), Fail> {
    match trace_of(rt.alloc(), TRACE, 1) {
        Ok(trace) => orders_open::<Brand>(&rt, trace),
        Err(_) => {
            assert!(rt; false);
            Ok(())
        }
    }
}
