//! What a post has left to do, and the part of the hearing to which it has come, are read off its past.
//!
//! Proved: `agendas_are_read`: behind any steps of a run, what a post has left to do, and the part of the hearing that it came to, are read
//! off its past.
#![tactic(auto)]

ghost use Rattle.post_spec.specs.Codecs.{codecs};
ghost use Rattle.read_agendas.specs.Left.{AgendasAreRead, SessionsAreReadBetween};

use post_spec::Coded;

/// Behind the steps of any run, what a post has decided and not done yet is what the newest hearing and the words that were read ask of it,
/// less what was done; and so is the part of the hearing that it has come to.
pub fn agendas_are_read<C: Coded>()
    ensures { AgendasAreRead (codecs C.negotiates C.reads C.encodes) }
{}

/// Behind the steps of any run behind which nothing is left to do, also within a block: the bytes that a post hasn't read are those of its
/// session's stream behind the words that are answered and the one whose reply waits; and it is due as its deadline says.
pub fn sessions_are_read_between<C: Coded>()
    ensures { SessionsAreReadBetween (codecs C.negotiates C.reads C.encodes) }
{}
