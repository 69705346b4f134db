//! What holds of a post that has nothing to do, and of one that read a word.

ghost use Rattle.secc_machine.specs.Resting.{ReadsAll, StaysQuiet, ActsOnWords};

/// A quiet post read all frames that came, so it may hear the next piece; and deciding leaves it.
pub fn law_of_rest()
    ensures read { ReadsAll }
    ensures same { StaysQuiet }
{}

/// A word that is read leaves something to do.
pub fn law_of_words()
    ensures { ActsOnWords }
{}
