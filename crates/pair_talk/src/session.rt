//! A session.

ghost use Rattle.std.specs.Prelude.{◌≡◌, ◌≤◌, ◌+◌, ◌*◌, ◌^◌, List, true};
ghost use Rattle.session_words.specs.declared.plan.CarPlan.{CarPlan};
ghost use Rattle.post_spec.specs.Codecs.{codecs};
ghost use Rattle.car_spec.specs.Codecs as car_codecs;
ghost use Rattle.car_codec.specs.Requests.{IsPlan};
ghost use Rattle.pair_ends.specs.Ends.{IsReadySide};
ghost use Rattle.pipe_spec.specs.Histories.{Happening};
ghost use Rattle.pipe_spec.specs.Turns.{Station};
ghost use Rattle.pair_talk.specs.Beginning.{Awaits};
ghost use Rattle.pair_talk.specs.Ending.{Ends};
ghost use Rattle.pair_talk.specs.Keeping.{AreSound, PostIsQuiet, CarIsQuiet, IsAt, GoesOn};
ghost use Rattle.pair_talk.specs.Lessening.{over_by};
ghost use Rattle.pair_talk.specs.Sides.{sides};

use crate::acting::answer;
use crate::pair::Pair;
use crate::turning::turn;
use car_codec::CarCodec;
use site_codec::Codec;

/// Makes turns until the session is over.
fn go_on<C: Codec, D: CarCodec>(codec: &mut C, car_codec: &mut D, pair: &mut Pair)
    requires sound { AreSound C.reads (sides pair.old) }
    requires post { PostIsQuiet (sides pair.old) }
    requires car { CarIsQuiet (sides pair.old) }
    requires early { (sides pair.old).moment ≤ 2 ^ 62 + 10 * (sides pair.old).post.tally.hearings }
    ensures goes { (st : Station) (plan : CarPlan) (h : List Happening) → IsAt (codecs C.negotiates C.reads C.encodes) (car_codecs.codecs D.offers D.responds D.reads D.encodes) st plan h (sides pair.old) → GoesOn (codecs C.negotiates C.reads C.encodes) (car_codecs.codecs D.offers D.responds D.reads D.encodes) st plan h (sides pair.new) }
    ensures sound { AreSound C.reads (sides pair.new) }
    ensures post { PostIsQuiet (sides pair.new) }
    ensures car { CarIsQuiet (sides pair.new) }
    ensures over { over_by (sides pair.new) ≡ true }
{
    while !pair.is_over() {
        turn(codec, car_codec, pair);
    }
}

/// A car comes, and the session goes on until it is over.
pub(crate) fn hold_session<C: Codec, D: CarCodec>(codec: &mut C, car_codec: &mut D, pair: &mut Pair)
    requires ready { IsReadySide C.reads (sides pair.old).post }
    requires rules { IsPlan (sides pair.old).car.plan }
    requires few { (sides pair.old).turns ≤ 4294967296 }
    requires quiet { PostIsQuiet (sides pair.old) }
    requires early { (sides pair.old).moment ≤ 2 ^ 62 }
    ensures ends { (st : Station) (plan : CarPlan) (before : List Happening) → Awaits (codecs C.negotiates C.reads C.encodes) (car_codecs.codecs D.offers D.responds D.reads D.encodes) st plan before (sides pair.old) → Ends (codecs C.negotiates C.reads C.encodes) (car_codecs.codecs D.offers D.responds D.reads D.encodes) st plan before (sides pair.new) }
    ensures sound { AreSound C.reads (sides pair.new) }
    ensures quiet { PostIsQuiet (sides pair.new) }
{
    pair.come();
    answer(codec, car_codec, pair);
    go_on(codec, car_codec, pair);
}
