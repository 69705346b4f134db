//! The three traits through which everything goes that is heard, done, read and written.

ghost use Rattle.std.specs.Prelude.{◌≡◌, ◌≤◌, ℕ, List, [], ◌∷◌, length, take, Option, Some, IsSome, OnOk, OnErr, IfOk, is_ok};
ghost use Rattle.charge_world.specs.declared.entry.Entry.{Entry};
ghost use Rattle.charge_world.specs.declared.entry.Entry.TheVariants as entry;
ghost use Rattle.charge_world.specs.declared.ports.Ports.{Ports};
ghost use Rattle.charge_world.specs.Outside.{Grows, GrowsByOne, IsOfPosts, HasCount, bytes_of, posts_of, IsFault, Takes, GoesOn, Appends, AppendsSome};

use crate::failed::Failed;
use crate::heard::Heard;
use crate::ports::{Order, Ports};

/// The connections, the datagrams, the charger and the clock of a site.
///
/// A wire may tell its past. One that stopped telling tells nothing from then on.
pub trait Wire {
    /// What was heard and done so far, the newest entry first; `None` where that isn't told.
    ghost past: { Self → Option (List Entry) };

    /// The `until` of each `next` so far, the newest first. It counts where the past is told.
    ghost untils: { Self → List ℕ };

    /// What `start` was given last, whether or not it was done; `None` before it was called.
    ghost started: { Self → Option Ports };

    /// How many posts the last `start` that was done was given; 1 for a car.
    ghost posts: { Self → ℕ };

    /// A number that never falls, and rises exactly where a call answers `Failed`.
    ghost faults: { Self → ℕ };

    /// Begins to listen. A car with discovery port 0 dials its TCP port.
    fn start(&mut self, ports: &Ports) -> Result<(), Failed>
        ensures past { Grows (past self.old) (past self.new) [] }
        ensures untils { IsSome (past self.new) → untils self.new ≡ untils self.old }
        ensures started { started self.new ≡ Some ports.now }
        ensures posts { OnOk result (posts self.new ≡ posts_of ports.now) }
        ensures faults { IsFault (faults self.old) (faults self.new) result };

    /// Waits for one event, at a real wire at most until the moment `until` (milliseconds), when it gives Tick.
    /// The bytes of `Bytes` and `Datagram` are the first of the room.
    fn next(&mut self, until: u64, room: &mut [u8]) -> Result<Heard, Failed>
        requires { length room.old ≡ 4096 }
        ensures heard { IfOk result (λ heard. GrowsByOne (past self.old) (past self.new) (entry.Heard heard (bytes_of heard.what room.new))) }
        ensures lost { OnErr result (GrowsByOne (past self.old) (past self.new) entry.Lost) }
        ensures post { IfOk result (λ heard. IsOfPosts (posts self.old) heard.what) }
        ensures count { IfOk result (λ heard. HasCount heard.what) }
        ensures untils { IsSome (past self.new) → untils self.new ≡ until ∷ untils self.old }
        ensures started { started self.new ≡ started self.old }
        ensures posts { posts self.new ≡ posts self.old }
        ensures faults { IsFault (faults self.old) (faults self.new) result };

    /// Sends bytes on the connection of a post. After `Failed` nothing is known of how much went out.
    fn send(&mut self, post: u8, bytes: &[u8]) -> Result<(), Failed>
        ensures sent { GrowsByOne (past self.old) (past self.new) (entry.Sent post bytes.now (is_ok result)) }
        ensures untils { IsSome (past self.new) → untils self.new ≡ untils self.old }
        ensures started { started self.new ≡ started self.old }
        ensures posts { posts self.new ≡ posts self.old }
        ensures faults { IsFault (faults self.old) (faults self.new) result };

    /// Sends a datagram: a station to the sender of the post's last datagram, a car to its discovery port.
    fn answer(&mut self, post: u8, bytes: &[u8]) -> Result<(), Failed>
        ensures answered { GrowsByOne (past self.old) (past self.new) (entry.Answered post bytes.now (is_ok result)) }
        ensures untils { IsSome (past self.new) → untils self.new ≡ untils self.old }
        ensures started { started self.new ≡ started self.old }
        ensures posts { posts self.new ≡ posts self.old }
        ensures faults { IsFault (faults self.old) (faults self.new) result };

    /// Gives an order to the charger of a post, or to the car's contactor.
    fn drive(&mut self, post: u8, order: Order) -> Result<(), Failed>
        ensures drove { GrowsByOne (past self.old) (past self.new) (entry.Drove post order (is_ok result)) }
        ensures untils { IsSome (past self.new) → untils self.new ≡ untils self.old }
        ensures started { started self.new ≡ started self.old }
        ensures posts { posts self.new ≡ posts self.old }
        ensures faults { IsFault (faults self.old) (faults self.new) result };

    /// Connects the car to a loopback port. The connection is heard as `Came`.
    fn dial(&mut self, port: u16) -> Result<(), Failed>
        ensures dialed { GrowsByOne (past self.old) (past self.new) (entry.Dialed port (is_ok result)) }
        ensures untils { IsSome (past self.new) → untils self.new ≡ untils self.old }
        ensures started { started self.new ≡ started self.old }
        ensures posts { posts self.new ≡ posts self.old }
        ensures faults { IsFault (faults self.old) (faults self.new) result };

    /// Hangs up: the session of the post ended, by the cause of that number. It can't fail.
    fn end(&mut self, post: u8, cause: u8)
        ensures ended { GrowsByOne (past self.old) (past self.new) (entry.Ended post cause) }
        ensures untils { IsSome (past self.new) → untils self.new ≡ untils self.old }
        ensures started { started self.new ≡ started self.old }
        ensures posts { posts self.new ≡ posts self.old }
        ensures faults { faults self.new ≡ faults self.old };
}

/// Files that are read, one at a time.
pub trait Source {
    /// The bytes of each name; `None` where they aren't told. No call changes them.
    ghost holds: { Self → List ℕ → Option (List ℕ) };

    /// The bytes that are left of the name that was begun last; `None` where they aren't told.
    ghost left: { Self → Option (List ℕ) };

    /// A number that never falls, and rises exactly where a call answers `Failed`.
    ghost faults: { Self → ℕ };

    /// Begins to read the file of that name.
    fn begin(&mut self, name: &str) -> Result<(), Failed>
        ensures left { OnOk result (left self.new ≡ holds self.old name.now) }
        ensures holds { (other : List ℕ) → holds self.new other ≡ holds self.old other }
        ensures faults { IsFault (faults self.old) (faults self.new) result };

    /// Reads the next bytes into the front of the room, and says how many. 0 for a room that isn't empty is the end.
    fn read(&mut self, room: &mut [u8]) -> Result<usize, Failed>
        ensures bound { IfOk result (λ n. n ≤ length room.new) }
        ensures taken { IfOk result (λ n. Takes (left self.old) (left self.new) (take n room.new)) }
        ensures end { IfOk result (λ n. GoesOn (left self.old) (length room.new) n) }
        ensures holds { (other : List ℕ) → holds self.new other ≡ holds self.old other }
        ensures faults { IsFault (faults self.old) (faults self.new) result };
}

/// A file or a stream that is written.
pub trait Sink {
    /// The bytes taken so far; `None` where they aren't told.
    ghost taken: { Self → Option (List ℕ) };

    /// A number that never falls, and rises exactly where a call answers `Failed`.
    ghost faults: { Self → ℕ };

    /// Takes a piece: the whole of it at `Ok`, a front of it at `Failed`.
    fn write(&mut self, piece: &[u8]) -> Result<(), Failed>
        ensures ok { OnOk result (Appends (taken self.old) (taken self.new) piece.now) }
        ensures failed { OnErr result (AppendsSome (taken self.old) (taken self.new) piece.now) }
        ensures faults { IsFault (faults self.old) (faults self.new) result };
}
