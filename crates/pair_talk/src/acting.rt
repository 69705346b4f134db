//! What both ends do before something more is heard.

ghost use Rattle.std.specs.Prelude.{◌≡◌, ◌<◌, ◌≤◌, List, length, true, false};
ghost use Rattle.session_words.specs.declared.plan.CarPlan.{CarPlan};
ghost use Rattle.post_spec.specs.Codecs.{codecs};
ghost use Rattle.car_spec.specs.Codecs as car_codecs;
ghost use Rattle.site_posts.specs.Work.{work};
ghost use Rattle.evcc_machine.specs.Work.{work as car_work};
ghost use Rattle.pipe_spec.specs.Histories.{Happening};
ghost use Rattle.pipe_spec.specs.Turns.{Station};
ghost use Rattle.pair_talk.specs.Acting.{MayHaveActed, MayHaveDone, HaveDone, HasAnswered};
ghost use Rattle.pair_talk.specs.Keeping.{AreSound, PostIsQuiet, CarIsQuiet, IsAt};
ghost use Rattle.pair_talk.specs.Lessening.{Keeps};
ghost use Rattle.pair_talk.specs.Sides.{sides};

use crate::pair::Pair;
use car_codec::CarCodec;
use pair_ends::{act, step};
use site_codec::Codec;

/// The station does what it does next; `false` where it has nothing to do.
fn act_once<C: Codec, D: CarCodec>(codec: &mut C, pair: &mut Pair) -> bool
    requires { AreSound C.reads (sides pair.old) }
    ensures acts { (st : Station) (plan : CarPlan) (h : List Happening) → IsAt (codecs C.negotiates C.reads C.encodes) (car_codecs.codecs D.offers D.responds D.reads D.encodes) st plan h (sides pair.old)
        → MayHaveActed (codecs C.negotiates C.reads C.encodes) (car_codecs.codecs D.offers D.responds D.reads D.encodes) st plan h result (sides pair.new) }
    ensures sound { AreSound C.reads (sides pair.new) }
    ensures quiet { result ≡ false → PostIsQuiet (sides pair.new) }
    ensures kept { Keeps (sides pair.old) (sides pair.new) }
    ensures still { PostIsQuiet (sides pair.old) → sides pair.new ≡ sides pair.old }
    ensures work { result ≡ true → work (sides pair.new).post.post < work (sides pair.old).post.post }
{
    act(codec, &mut pair.post, pair.moment, &mut pair.to_car)
}

/// The station does all that it has to do.
pub(crate) fn answer_post<C: Codec, D: CarCodec>(codec: &mut C, pair: &mut Pair)
    requires { AreSound C.reads (sides pair.old) }
    ensures acts { (st : Station) (plan : CarPlan) (h : List Happening) → IsAt (codecs C.negotiates C.reads C.encodes) (car_codecs.codecs D.offers D.responds D.reads D.encodes) st plan h (sides pair.old)
        → HasAnswered (codecs C.negotiates C.reads C.encodes) (car_codecs.codecs D.offers D.responds D.reads D.encodes) st plan h (sides pair.new) }
    ensures sound { AreSound C.reads (sides pair.new) }
    ensures quiet { PostIsQuiet (sides pair.new) }
    ensures kept { Keeps (sides pair.old) (sides pair.new) }
    ensures still { PostIsQuiet (sides pair.old) → sides pair.new ≡ sides pair.old }
{
    while act_once::<C, D>(codec, pair) {}
}

/// The car does what it does next, or reads its next word; `false` where neither is left.
fn step_once<C: Codec, D: CarCodec>(codec: &mut D, pair: &mut Pair) -> bool
    requires sound { AreSound C.reads (sides pair.old) }
    requires quiet { PostIsQuiet (sides pair.old) }
    ensures steps { (st : Station) (plan : CarPlan) (h : List Happening) → IsAt (codecs C.negotiates C.reads C.encodes) (car_codecs.codecs D.offers D.responds D.reads D.encodes) st plan h (sides pair.old)
        → MayHaveDone (codecs C.negotiates C.reads C.encodes) (car_codecs.codecs D.offers D.responds D.reads D.encodes) st plan h result (sides pair.new) }
    ensures sound { AreSound C.reads (sides pair.new) }
    ensures post { PostIsQuiet (sides pair.new) }
    ensures quiet { result ≡ false → CarIsQuiet (sides pair.new) }
    ensures kept { Keeps (sides pair.old) (sides pair.new) }
    ensures way { (sides pair.new).to_car ≡ (sides pair.old).to_car }
    ensures work { result ≡ true → car_work (sides pair.new).car.plan (sides pair.new).car.car < car_work (sides pair.old).car.plan (sides pair.old).car.car }
{
    step(codec, &mut pair.car, &mut pair.to_station)
}

/// The car does and reads all that is left.
fn answer_car<C: Codec, D: CarCodec>(codec: &mut D, pair: &mut Pair)
    requires sound { AreSound C.reads (sides pair.old) }
    requires quiet { PostIsQuiet (sides pair.old) }
    ensures steps { (st : Station) (plan : CarPlan) (h : List Happening) → IsAt (codecs C.negotiates C.reads C.encodes) (car_codecs.codecs D.offers D.responds D.reads D.encodes) st plan h (sides pair.old)
        → HaveDone (codecs C.negotiates C.reads C.encodes) (car_codecs.codecs D.offers D.responds D.reads D.encodes) st plan h (sides pair.new) }
    ensures sound { AreSound C.reads (sides pair.new) }
    ensures post { PostIsQuiet (sides pair.new) }
    ensures quiet { CarIsQuiet (sides pair.new) }
    ensures kept { Keeps (sides pair.old) (sides pair.new) }
    ensures way { (sides pair.new).to_car ≡ (sides pair.old).to_car }
{
    while step_once::<C, D>(codec, pair) {}
}

/// Both ends do all that they have to do, the station first.
pub(crate) fn answer<C: Codec, D: CarCodec>(codec: &mut C, car_codec: &mut D, pair: &mut Pair)
    requires { AreSound C.reads (sides pair.old) }
    ensures acts { (st : Station) (plan : CarPlan) (h : List Happening) → IsAt (codecs C.negotiates C.reads C.encodes) (car_codecs.codecs D.offers D.responds D.reads D.encodes) st plan h (sides pair.old)
        → HaveDone (codecs C.negotiates C.reads C.encodes) (car_codecs.codecs D.offers D.responds D.reads D.encodes) st plan h (sides pair.new) }
    ensures sound { AreSound C.reads (sides pair.new) }
    ensures post { PostIsQuiet (sides pair.new) }
    ensures quiet { CarIsQuiet (sides pair.new) }
    ensures kept { Keeps (sides pair.old) (sides pair.new) }
    ensures way { PostIsQuiet (sides pair.old) → (sides pair.new).to_car ≡ (sides pair.old).to_car }
    ensures short { length (sides pair.new).to_car ≤ 1032 }
{
    answer_post::<C, D>(codec, pair);
    answer_car::<C, D>(car_codec, pair);
    let _to_car = pair.to_car.bytes();
}
