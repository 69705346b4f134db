//! A law of replays.

ghost use Rattle.post_spec.specs.Codecs.{codecs};
ghost use Rattle.replay_command.specs.Itself.{WritesItself};

use site_codec::LawfulCodec;
use site_replay_laws::replays_itself;

/// A trace of at most 256 MiB that a station wrote whole is written to itself by a replay under the same plan.
pub fn writes_itself<C: LawfulCodec>()
    ensures { WritesItself (codecs C.negotiates C.reads C.encodes) }
{
    replays_itself::<C>();
}
