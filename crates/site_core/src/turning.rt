//! A site in its turns.

ghost use Rattle.std.specs.Prelude.{◌≤◌, ℕ, false, length, map, min, fold};
ghost use Rattle.session_timers.specs.Due.{never};
ghost use Rattle.session_words.specs.declared.plan.SitePlan.{SitePlan};
ghost use Rattle.post_spec.specs.Codecs.{codecs};
ghost use Rattle.site_posts.specs.Places.{due_at};
ghost use Rattle.site_core.specs.Hearing.{MayHear};
ghost use Rattle.site_core.specs.Standing.{Standing, IsRunBy, ClosesAll};

use crate::site::Site;
use charge_world::{Heard, Sink, Wire};
use end_turns::End;
use endpoint::write_lost;
use site_codec::Codec;
use site_posts::until;
use site_turns::{close_all, cut_all, hear};
use trace_lines::{TraceFailed, TraceLines};

impl<C: Codec> End for Site<C> {
    ghost Plan = { SitePlan };

    ghost State = { Standing };

    ghost Kept = { ℕ × ℕ };

    ghost state = { λ site. record { places = site.places.items; limit = site.limit; turns = site.turns } };

    ghost kept = { λ s. (s.turns, length s.places) };

    ghost turns_in = { λ kept. kept.0 };

    ghost posts_in = { λ kept. kept.1 };

    ghost runs = { IsRunBy (codecs C.negotiates C.reads C.encodes) };

    ghost rests = { λ s. MayHear C.reads s.places };

    ghost over = { λ _. false };

    ghost due = { λ s. fold min never (map due_at s.places) };

    ghost closes = { λ s _. ClosesAll s.places };

    ghost known = { λ _ _ _ _ run. run.block.known_is };

    fn lines(&self) -> &TraceLines {
        &self.desk.lines
    }

    fn turns(&self) -> u64 {
        self.turns
    }

    fn until(&self) -> u64 {
        until(&self.places)
    }

    fn is_over(&self) -> bool {
        false
    }

    fn hear<W: Wire, J: Sink>(
        &mut self,
        now: u64,
        hearing: u64,
        heard: &Heard,
        room: &[u8],
        wire: &mut W,
        trace: &mut J,
    ) -> Result<(), TraceFailed> {
        hear(
            &mut self.desk,
            self.places.as_mut_slice(),
            self.limit,
            now,
            hearing,
            heard,
            room,
            wire,
            trace,
        )
    }

    fn miss<J: Sink>(&mut self, hearing: u64, trace: &mut J) -> Result<(), TraceFailed> {
        write_lost(&mut self.desk.lines, hearing, trace)
    }

    fn close<W: Wire, J: Sink>(
        &mut self,
        hearing: u64,
        wire: &mut W,
        trace: &mut J,
    ) -> Result<(), TraceFailed> {
        close_all(&self.places, hearing, &mut self.desk.lines, wire, trace)
    }

    fn cut<W: Wire>(&self, wire: &mut W) {
        cut_all(&self.places, wire);
    }
}
