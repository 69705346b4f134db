//! Between two sessions.

ghost use Rattle.std.specs.Prelude.{◌≡◌, List};
ghost use Rattle.session_words.specs.declared.plan.CarPlan.{CarPlan};
ghost use Rattle.post_spec.specs.Codecs.{codecs};
ghost use Rattle.car_spec.specs.Codecs as car_codecs;
ghost use Rattle.pipe_spec.specs.Histories.{Happening};
ghost use Rattle.pipe_spec.specs.Turns.{Station};
ghost use Rattle.pair_talk.specs.Keeping.{AreSound, PostIsQuiet};
ghost use Rattle.pair_talk.specs.Parting.{IsOver, HasParted};
ghost use Rattle.pair_talk.specs.Sides.{sides};

use crate::acting::answer_post;
use crate::pair::Pair;
use car_codec::CarCodec;
use site_codec::Codec;

/// The connection of a session that is over goes where the station's still stands, and the station does all that this asks for.
pub(crate) fn part<C: Codec, D: CarCodec>(codec: &mut C, pair: &mut Pair)
    requires sound { AreSound C.reads (sides pair.old) }
    requires quiet { PostIsQuiet (sides pair.old) }
    ensures parts { (st : Station) (plan : CarPlan) (h : List Happening) → IsOver (codecs C.negotiates C.reads C.encodes) (car_codecs.codecs D.offers D.responds D.reads D.encodes) st plan h (sides pair.old)
        → HasParted (codecs C.negotiates C.reads C.encodes) (car_codecs.codecs D.offers D.responds D.reads D.encodes) st plan h (sides pair.new) }
    ensures sound { AreSound C.reads (sides pair.new) }
    ensures quiet { PostIsQuiet (sides pair.new) }
    ensures time { (sides pair.new).moment ≡ (sides pair.old).moment }
{
    if pair.post.tally.cause.is_none() {
        pair.go();
        answer_post::<C, D>(codec, pair);
    }
}
