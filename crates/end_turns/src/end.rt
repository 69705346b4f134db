//! What an end of a charge is to its turns.

ghost use Rattle.std.specs.Prelude.{◌≡◌, ◌≤◌, ◌<◌, ◌+◌, ◌∷◌, ℕ, Bool, false, List, Option, length, max, is_ok, IsSome, OnOk};
ghost use Rattle.charge_world.specs.declared.entry.Entry.{Entry};
ghost use Rattle.charge_world.specs.declared.entry.Entry.TheVariants as entry;
ghost use Rattle.charge_world.specs.Outside.{IsFault, HasCount, IsOfPosts, bytes_of};
ghost use Rattle.endpoint.specs.Knowing.{Known, IsKnown, known_behind, known_lost, AwaitsLine};
ghost use Rattle.endpoint.specs.Rooms.{FitsIn};
ghost use Rattle.endpoint.specs.Telling.{Carries, CarriesText, HasClosing, IsTraced, IsWrittenSo, IsClosedSo};
ghost use Rattle.end_turns.specs.Turns.{Hears};

use charge_world::{Heard, Sink, Wire};
use endpoint::{TraceFailed, TraceLines};

/// An end of a charge: a site, or a car. No call takes memory.
pub trait End {
    /// What its runs go by, besides what it keeps.
    ghost Plan: { Type 0 };

    /// What it keeps, without the memory in which it makes frames and lines.
    ghost State: { Type 0 };

    /// What stays over all hearings.
    ghost Kept: { Type 0 };

    ghost state: { Self → State };

    ghost kept: { State → Kept };

    /// The most turns that it makes.
    ghost turns_in: { Kept → ℕ };

    /// How many posts its wire has.
    ghost posts_in: { Kept → ℕ };

    /// The past is a run of it, of which this is known, and it keeps what the run tells.
    ghost runs: { Plan → State → Known → List Entry → Type 0 };

    /// It may hear: it has nothing left to do.
    ghost rests: { State → Type 0 };

    /// It hears nothing more, whatever comes.
    ghost over: { State → Bool };

    /// Until when the next hearing waits.
    ghost due: { State → ℕ };

    /// The orders that close a run, on top of its blocks, by whether each line could be written.
    ghost closes: { State → Bool → List Entry → List Entry → Type 0 };

    /// The most turns that it makes.
    fn turns(&self) -> u64
        ensures { result ≡ turns_in (kept (state self.now)) };

    /// Until when the next hearing waits, in milliseconds.
    fn until(&self) -> u64
        ensures { result ≡ due (state self.now) };

    /// Whether it hears nothing more.
    fn is_over(&self) -> bool
        ensures { result ≡ over (state self.now) };

    /// The room in which its lines are made.
    fn lines(&self) -> &TraceLines;

    /// Takes in what was heard in the hearing of this number, by which the clock stands at `now`, writes its line, and does all that follows from
    /// it. The bytes of a piece or a datagram are the first of the room.
    fn hear<W: Wire, J: Sink>(
        &mut self,
        now: u64,
        hearing: u64,
        heard: &Heard,
        room: &[u8],
        wire: &mut W,
        trace: &mut J,
    ) -> Result<(), TraceFailed>
        requires few { posts_in (kept (state self.old)) ≤ 8 }
        requires room { FitsIn heard.now.what (length room.now) }
        requires count { HasCount heard.now.what }
        requires post { IsOfPosts (posts_in (kept (state self.old))) heard.now.what }
        requires rests { rests (state self.old) }
        requires lives { over (state self.old) ≡ false }
        ensures carried { (plan : Plan) (k : Known) → k.last ≡ false → k.heard < turns_in (kept (state self.old)) → max k.clock heard.now.at ≡ now
            → Carries (W.past wire.old) (W.past wire.new) (Hears (runs plan (state self.old) k) heard.now (bytes_of heard.now.what room.now))
            (runs plan (state self.new) (known_behind k heard.now (bytes_of heard.now.what room.now) (due (state self.old)))) }
        ensures traced { (n : ℕ) → hearing ≡ n + 1 → CarriesText (W.past wire.old) (W.past wire.new) (J.taken trace.old) (J.taken trace.new)
            (AwaitsLine n (entry.Heard heard.now (bytes_of heard.now.what room.now))) (IsWrittenSo hearing result) }
        ensures kept { kept (state self.new) ≡ kept (state self.old) }
        ensures rests { OnOk result (rests (state self.new)) }
        ensures writes { IsFault (J.faults trace.old) (J.faults trace.new) result }
        ensures untils { IsSome (W.past wire.new) → W.untils wire.new ≡ W.untils wire.old }
        ensures started { W.started wire.new ≡ W.started wire.old }
        ensures posts { W.posts wire.new ≡ W.posts wire.old }
        ensures faults { W.faults wire.old ≤ W.faults wire.new };

    /// Takes in that the hearing of this number was lost, and writes its line.
    fn miss<J: Sink>(&mut self, hearing: u64, trace: &mut J) -> Result<(), TraceFailed>
        requires rests { rests (state self.old) }
        requires lives { over (state self.old) ≡ false }
        ensures carried { (plan : Plan) (k : Known) (past : List Entry) → k.last ≡ false → k.heard < turns_in (kept (state self.old))
            → runs plan (state self.old) k past → runs plan (state self.new) (known_lost k (due (state self.old))) (entry.Lost ∷ past) }
        ensures traced { (n : ℕ) (past : Option (List Entry)) → hearing ≡ n + 1 → CarriesText past past (J.taken trace.old) (J.taken trace.new)
            (AwaitsLine n entry.Lost) (IsWrittenSo hearing result) }
        ensures same { state self.new ≡ state self.old }
        ensures writes { IsFault (J.faults trace.old) (J.faults trace.new) result };

    /// Gives the orders by which a whole run ends, and writes the line of each. Behind a line that couldn't be written the orders go on without.
    fn close<W: Wire, J: Sink>(
        &mut self,
        hearing: u64,
        wire: &mut W,
        trace: &mut J,
    ) -> Result<(), TraceFailed>
        requires few { posts_in (kept (state self.old)) ≤ 8 }
        ensures closed { (blocks : List Entry) → Carries (W.past wire.old) (W.past wire.new) (λ past. past ≡ blocks) (closes (state self.old) (is_ok result) blocks) }
        ensures orders { (blocks : List Entry) → Carries (W.past wire.old) (W.past wire.new) (λ past. past ≡ blocks) (HasClosing blocks) }
        ensures traced { CarriesText (W.past wire.old) (W.past wire.new) (J.taken trace.old) (J.taken trace.new) (IsTraced hearing) (IsClosedSo hearing result) }
        ensures same { state self.new ≡ state self.old }
        ensures writes { IsFault (J.faults trace.old) (J.faults trace.new) result }
        ensures untils { IsSome (W.past wire.new) → W.untils wire.new ≡ W.untils wire.old }
        ensures started { W.started wire.new ≡ W.started wire.old }
        ensures posts { W.posts wire.new ≡ W.posts wire.old }
        ensures faults { W.faults wire.old ≤ W.faults wire.new };

    /// Gives the orders by which a run ends that was cut. No line is written.
    fn cut<W: Wire>(&self, wire: &mut W)
        requires few { posts_in (kept (state self.now)) ≤ 8 }
        ensures closed { (blocks : List Entry) → Carries (W.past wire.old) (W.past wire.new) (λ past. past ≡ blocks) (closes (state self.now) false blocks) }
        ensures orders { (blocks : List Entry) → Carries (W.past wire.old) (W.past wire.new) (λ past. past ≡ blocks) (HasClosing blocks) }
        ensures untils { IsSome (W.past wire.new) → W.untils wire.new ≡ W.untils wire.old }
        ensures started { W.started wire.new ≡ W.started wire.old }
        ensures posts { W.posts wire.new ≡ W.posts wire.old }
        ensures faults { W.faults wire.old ≤ W.faults wire.new };

    /// Of a run it is known what its past tells.
    ghost known: { (plan : Plan) (s : State) (k : Known) (past : List Entry) → runs plan s k past → IsKnown k past };
}
