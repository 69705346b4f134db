//! What a post does next, before it is done.

ghost use Rattle.std.specs.Prelude.{◌≡◌, ◌≤◌, ◌<◌, length};
ghost use Rattle.post_spec.specs.Codecs.{codecs};
ghost use Rattle.site_posts.specs.Filling.{at};
ghost use Rattle.site_acts.specs.Deeds.{Nexts};
ghost use Rattle.site_acts.specs.Serving.{IsReady};

use crate::deeds::Deed;
use crate::preparing::prepare;
use secc_machine::{law_of_rest, law_of_words};
use site_codec::Codec;
use site_posts::{Place, fill};

/// What post i does next, and how it is done; the post has decided it and read the word that it wanted.
pub fn next_deed<C: Codec>(
    codec: &mut C,
    places: &mut [Place],
    i: usize,
    limit: u32,
    room: &mut [u8],
) -> Option<Deed>
    requires within { i < length places.old }
    requires few { length places.old ≤ 8 }
    requires room { length room.old ≡ 1032 }
    requires ready { IsReady C.reads (at places.old i) }
    ensures { Nexts (codecs C.negotiates C.reads C.encodes) limit places.old i room.new result places.new }
{
    law_of_rest();
    law_of_words();
    fill(codec, places, i, limit);
    prepare(codec, &places[i].post, room)
}
