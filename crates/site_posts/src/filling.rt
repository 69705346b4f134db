//! What a post decides, with the word that it reads for it.

ghost use Rattle.std.specs.Prelude.{◌≡◌, ◌≤◌, ◌<◌, length, Some};
ghost use Rattle.std.specs.Option.{option_map};
ghost use Rattle.post_spec.specs.Codecs.{codecs};
ghost use Rattle.station_spec.specs.Judging.{wanted};
ghost use Rattle.valid_isolation.specs.Isolated.{IsIsolated, HasJudged};
ghost use Rattle.site_codec.specs.Views.{judged_of, asks_in, IsShownFor, ComesFirst};
ghost use Rattle.site_codec.specs.Replies.{IsPlan};
ghost use Rattle.site_posts.specs.Sound.{IsSound};
ghost use Rattle.site_posts.specs.Places.{Shares};
ghost use Rattle.site_posts.specs.Filling.{at, decided_place, word_place, IsShort, JudgesFor, Reads, Fills};

use crate::place::Place;
use crate::sharing::share;
use site_codec::Codec;
use site_codec::secc_machine::Judged;

impl Place {
    /// Decides what is to be done without a word.
    fn decide(&mut self)
        ensures { self.new ≡ decided_place self.old }
    {
        self.post.decide(&self.plan);
    }

    /// Reads a word that was judged so, with the watts that it is shown.
    fn read(&mut self, judged: Judged, shown: u32)
        requires plan { IsPlan self.old.plan }
        requires isolation { IsIsolated self.old.post.session self.old.post.facts.isolation }
        requires first { ComesFirst self.old.post.session (judged_of judged) }
        ensures { self.new ≡ word_place (judged_of judged) shown self.old }
    {
        self.post.read(&self.plan, judged, shown);
    }
}

/// A response has at most four bytes. It does nothing: the response is looked at for the prover, which so knows its length.
fn is_short(judged: &Judged)
    ensures { IsShort (judged_of judged.now) }
{
    if let Judged::Negotiated {
        chosen: _,
        response,
    } = judged
    {
        let _bytes = response.as_slice();
    }
}

/// What the payload is judged as that a post wants read now, if it wants one.
fn judge<C: Codec>(codec: &mut C, place: &Place) -> Option<Judged>
    ensures judged { JudgesFor (codecs C.negotiates C.reads C.encodes) place.now.plan.dialects.items (wanted place.now.post) (option_map judged_of result) }
{
    let wanted = place.post.wanted()?;
    let judged = match wanted.dialect {
        None => codec.negotiate(place.plan.dialects.as_slice(), wanted.payload),
        Some(dialect) => codec.judge(dialect, wanted.payload),
    };
    is_short(&judged);
    Some(judged)
}

/// The watts that post i is shown for this word.
fn shown(places: &[Place], i: usize, judged: &Judged, limit: u32) -> u32
    requires within { i < length places.now }
    requires few { length places.now ≤ 8 }
    ensures { IsShownFor (Shares limit places.now i) (asks_in (at places.now i).plan (at places.now i).post (at places.now i).post.session (judged_of judged.now)) result }
{
    let place = &places[i];
    match place.post.asks_for(&place.plan, judged) {
        None => 0,
        Some(asked) => share(places, i, asked, limit),
    }
}

/// Decides what post i does next, reading a word where it wants one.
pub fn fill<C: Codec>(codec: &mut C, places: &mut [Place], i: usize, limit: u32)
    requires within { i < length places.old }
    requires few { length places.old ≤ 8 }
    requires plan { IsPlan (at places.old i).plan }
    requires sound { IsSound C.reads (at places.old i).plan (at places.old i).post }
    ensures { Fills (codecs C.negotiates C.reads C.encodes) limit places.old i places.new }
{
    places[i].decide();
    read_word(codec, places, i, limit);
}

/// Reads the word that post i wants, if it wants one. What was heard is judged by then.
fn read_word<C: Codec>(codec: &mut C, places: &mut [Place], i: usize, limit: u32)
    requires within { i < length places.old }
    requires few { length places.old ≤ 8 }
    requires plan { IsPlan (at places.old i).plan }
    requires sound { IsSound C.reads (at places.old i).plan (at places.old i).post }
    requires judged { HasJudged (at places.old i).post }
    ensures { Reads (codecs C.negotiates C.reads C.encodes) limit places.old i places.new }
{
    match judge(codec, &places[i]) {
        None => {}
        Some(judged) => {
            let watts = shown(places, i, &judged, limit);
            places[i].read(judged, watts);
        }
    }
}
