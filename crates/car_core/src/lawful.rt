//! What holds of every run of a car.

ghost use Rattle.std.specs.Prelude.{ℕ, List};
ghost use Rattle.charge_world.specs.declared.entry.Entry.{Entry};
ghost use Rattle.session_words.specs.declared.plan.CarPlan.{CarPlan};
ghost use Rattle.car_spec.specs.Codecs.{codecs};
ghost use Rattle.car_spec.specs.Report.{Report};
ghost use Rattle.car_turns.specs.declared.ending.Ended.{Ended as HasEnded};
ghost use Rattle.car_turns.specs.Ending.{IsDriven};
ghost use Rattle.car_core.specs.Lawful.{IsLawful};

use car_closings::closes_by_bytes;
use car_codec::LawfulCarCodec;
use car_laws::{
    closes_by_words, contactors_are_read, ended_cars_are_silent, readings_are_kept, runs_end_open,
};

/// However driving a car ended, its run is lawful, where encoded requests read back and a payload is judged one way: each order to close is
/// mandated by the words that it read and by the bytes before it, a car that ended does nothing more, what it keeps is what its past and its
/// steps tell, and at the end the contactor is ordered open.
pub fn law_of_cars<C: LawfulCarCodec>()
    ensures { (plan : CarPlan) (how : HasEnded) (before after : List ℕ) (told : Report) (past : List Entry)
        → (driven : IsDriven (codecs C.offers C.responds C.reads C.encodes) plan how before after told past)
        → IsLawful (codecs C.offers C.responds C.reads C.encodes) plan driven.steps driven.blocks past }
{
    closes_by_words::<C>();
    closes_by_bytes::<C>();
    contactors_are_read::<C>();
    ended_cars_are_silent::<C>();
    readings_are_kept::<C>();
    runs_end_open::<C>();
}
