//! What holds of a car that has nothing to do, and how much it may still do.

ghost use Rattle.car_spec.specs.Codecs.{codecs};
ghost use Rattle.evcc_machine.specs.Resting.{ReadsAll, StaysQuiet};
ghost use Rattle.evcc_machine.specs.Work.{ActsLessen, WordsLessen};

use car_spec::CarCoded;

/// A quiet car that didn't end read all frames that came, so it may hear the next piece; and deciding leaves it.
pub fn law_of_rest()
    ensures read { ReadsAll }
    ensures same { StaysQuiet }
{}

/// Each word that is read leaves less to do, so that a hearing comes to its end.
pub fn law_of_words()
    ensures { WordsLessen }
{}

/// Each act of a car that didn't end leaves less to do, whatever its codecs are.
pub fn law_of_acts<C: CarCoded>()
    ensures { ActsLessen (codecs C.offers C.responds C.reads C.encodes) }
{}
