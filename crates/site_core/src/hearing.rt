//! A site in a loop of its embedder's own.

ghost use Rattle.std.specs.Prelude.{◌≡◌, ◌≤◌, ◌<◌, ◌-◌, ◌^◌, List, map, min, fold, length, vec_len, OnOk, OnErr, IsSome};
ghost use Rattle.charge_world.specs.declared.entry.Entry.TheVariants as entry;
ghost use Rattle.charge_world.specs.Outside.{Appends, AppendsSome, IsFault, HasCount, IsOfPosts, bytes_of};
ghost use Rattle.session_timers.specs.Due.{never};
ghost use Rattle.session_words.specs.declared.plan.SitePlan.{SitePlan};
ghost use Rattle.trace_text.specs.Pasts.{first_line_2};
ghost use Rattle.post_spec.specs.Codecs.{codecs};
ghost use Rattle.station_spec.specs.Runs.{IsCutRun};
ghost use Rattle.site_posts.specs.Places.{due_at};
ghost use Rattle.endpoint.specs.Rooms.{FitsIn};
ghost use Rattle.endpoint.specs.Knowing.{AwaitsLine};
ghost use Rattle.endpoint.specs.Telling.{Carries, CarriesText, IsTraced, IsWrittenSo, IsClosedSo};
ghost use Rattle.site_turns.specs.Ending.{AreCounts};
ghost use Rattle.site_turns.specs.SoFar.{IsSoFar, IsNext};
ghost use Rattle.site_core.specs.Hearing.{MayHear};

use crate::site::Site;
use charge_world::{Heard, Sink, Wire};
use site_codec::Codec;
use site_posts::until;
use site_turns::{close_all, hear};
use station_laws::runs_of_posts;
use trace_lines::TraceFailed;

impl<C: Codec> Site<C> {
    /// Writes the first line of a trace, which names its format. It comes before the first hearing.
    pub fn begin<J: Sink>(&self, trace: &mut J) -> Result<(), TraceFailed>
        ensures ok { OnOk result (Appends (J.taken trace.old) (J.taken trace.new) first_line_2) }
        ensures failed { OnErr result (AppendsSome (J.taken trace.old) (J.taken trace.new) first_line_2) }
        ensures writes { IsFault (J.faults trace.old) (J.faults trace.new) result }
    {
        self.desk.lines.begin(trace)
    }

    /// Until when the next hearing waits: the least moment at which a post is due, in milliseconds, the greatest number where none is.
    pub fn until(&self) -> u64
        ensures { result ≡ fold min never (map due_at self.now.places.items) }
    {
        until(&self.places)
    }

    /// One hearing with all that the site does about it, each deed with its line of the trace right behind its call. The bytes of a piece or a
    /// datagram are the first of the room.
    ///
    /// Where the wire tells its past, and this was heard behind a run of the plan so far, the past stays such a run (`run`), which the
    /// reports count (`reports`), and the trace its text (`traced`). `TraceFailed` exactly where a line couldn't be written: nothing more is
    /// done then, and nothing is heard any more. No call takes memory.
    pub fn hear<W: Wire, J: Sink>(
        &mut self,
        heard: &Heard,
        room: &[u8],
        wire: &mut W,
        trace: &mut J,
    ) -> Result<(), TraceFailed>
        requires waits { MayHear C.reads self.old.places.items }
        requires post { IsOfPosts (vec_len self.old.places) heard.now.what }
        requires count { HasCount heard.now.what }
        requires room { FitsIn heard.now.what (length room.now) }
        ensures run { (plan : SitePlan) → plan.limit ≡ self.old.limit → self.old.so_far.hearing < 2 ^ 64 - 1 → Carries (W.past wire.old) (W.past wire.new)
            (IsNext (codecs C.negotiates C.reads C.encodes) plan self.old.so_far heard.now (bytes_of heard.now.what room.now) self.old.places.items)
            (IsSoFar (codecs C.negotiates C.reads C.encodes) plan self.new.so_far self.new.places.items) }
        ensures reports { (plan : SitePlan) → plan.limit ≡ self.old.limit → self.old.so_far.hearing < 2 ^ 64 - 1 → Carries (W.past wire.old) (W.past wire.new)
            (IsNext (codecs C.negotiates C.reads C.encodes) plan self.old.so_far heard.now (bytes_of heard.now.what room.now) self.old.places.items)
            (AreCounts self.new.places.items) }
        ensures traced { self.old.so_far.hearing < 2 ^ 64 - 1 → CarriesText (W.past wire.old) (W.past wire.new) (J.taken trace.old) (J.taken trace.new)
            (AwaitsLine self.old.so_far.hearing (entry.Heard heard.now (bytes_of heard.now.what room.now))) (IsWrittenSo self.new.so_far.hearing result) }
        ensures waits { OnOk result (MayHear C.reads self.new.places.items) }
        ensures limit { self.new.limit ≡ self.old.limit }
        ensures turns { self.new.turns ≡ self.old.turns }
        ensures each_post { vec_len self.new.places ≡ vec_len self.old.places }
        ensures writes { IsFault (J.faults trace.old) (J.faults trace.new) result }
        ensures untils { IsSome (W.past wire.new) → W.untils wire.new ≡ W.untils wire.old }
        ensures started { W.started wire.new ≡ W.started wire.old }
        ensures posts { W.posts wire.new ≡ W.posts wire.old }
        ensures faults { W.faults wire.old ≤ W.faults wire.new }
    {
        runs_of_posts::<C>();
        self.so_far.count(heard.at);
        hear(
            &mut self.desk,
            self.places.as_mut_slice(),
            self.limit,
            self.so_far.moment,
            self.so_far.hearing,
            heard,
            room,
            wire,
            trace,
        )
    }

    /// Ends serving: orders open each post whose contactor is live, in order of number, with the line of each order. Behind a line that
    /// couldn't be written the orders go on without lines.
    ///
    /// Where the wire tells its past, and that was a run of the plan so far, it is now a run that is closed (`run`).
    pub fn close<W: Wire, J: Sink>(
        &mut self,
        wire: &mut W,
        trace: &mut J,
    ) -> Result<(), TraceFailed>
        requires { vec_len self.old.places ≤ 8 }
        ensures run { (plan : SitePlan) → Carries (W.past wire.old) (W.past wire.new)
            (IsSoFar (codecs C.negotiates C.reads C.encodes) plan self.old.so_far self.old.places.items) (IsCutRun (codecs C.negotiates C.reads C.encodes) plan) }
        ensures traced { CarriesText (W.past wire.old) (W.past wire.new) (J.taken trace.old) (J.taken trace.new) (IsTraced self.old.so_far.hearing)
            (IsClosedSo self.old.so_far.hearing result) }
        ensures same { self.new.places ≡ self.old.places }
        ensures writes { IsFault (J.faults trace.old) (J.faults trace.new) result }
        ensures started { W.started wire.new ≡ W.started wire.old }
        ensures posts { W.posts wire.new ≡ W.posts wire.old }
        ensures faults { W.faults wire.old ≤ W.faults wire.new }
    {
        close_all(
            &self.places,
            self.so_far.hearing,
            &mut self.desk.lines,
            wire,
            trace,
        )
    }
}
