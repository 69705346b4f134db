//! The posts of a wire: what becomes of their connections, whose turn it is, and how long nothing is due.

ghost use Rattle.std.specs.Prelude.{◌≡◌, ◌≤◌, ◌↔◌, length, IsTrue, IfSome, IfNone};
ghost use Rattle.wire_events.specs.Boards.{new_board, line_of, seat_of, with_seat, with_line, ended, accepted, closed, told, IsStep, NextTurn, FirstTurn, NoneIn, NothingDue, LeastDue};
ghost use Rattle.wire_events.specs.Seats.{raised};

use crate::seat::{Kind, Line, Seat, Socket};
use arrayvec::ArrayVec;
use std::marker::Model;

/// What a wire does next.
#[derive(Clone, Copy)]
pub enum Step {
    /// It tells that nothing more will be heard.
    Over,
    /// It is the turn of the post at this place, and of what may be told of it that of this kind.
    Turn { place: usize, kind: Kind },
    /// It tells that time went on.
    Tick,
    /// Nothing is due before this moment (milliseconds).
    Wait { moment: u64 },
}

/// The posts of a wire, how many connections may still end before it is over, and the place of the post whose turn was last.
///
/// The place of a post is its number less 1. Contracts see the posts as a list. A call at a place where no post is changes nothing.
#[derive(Drop)]
pub struct Board {
    seats: ArrayVec<Seat, 8>,
    left: u32,
    last: usize,
}

impl Model for Board {
    ghost use Rattle.std.specs.Prelude.{◌≤◌, length};
    ghost use Rattle.wire_events.specs.Boards.{Posts};

    ghost Value = { Posts };

    ghost view = { λ b. record { seats = b.seats.items; left = b.left; last = b.last } };

    ghost invariant = { λ b. length b.seats.items ≤ 8 };
}

impl Board {
    /// So many posts without a connection, of which nothing is due, until so many connections have ended.
    pub fn new(posts: usize, sessions: u32) -> Board
        requires { posts ≤ 8 }
        ensures { result ≡ new_board posts sessions }
    {
        Board {
            seats: blank_seats(posts),
            left: sessions,
            last: 7,
        }
    }

    /// The number of posts.
    pub fn posts(&self) -> usize
        ensures number { result ≡ length self.now.seats }
        ensures bound { result ≤ 8 }
    {
        self.seats.len()
    }

    /// How the connection of a post stands; `Free` where there is no such post.
    pub fn line(&self, place: usize) -> Line
        ensures { result ≡ line_of self.now place }
    {
        self.seat(place).line
    }

    /// Whether so many connections have ended that nothing more will be heard.
    pub fn is_over(&self) -> bool
        ensures { IsTrue result ↔ (self.now.left ≡ 0) }
    {
        self.left == 0
    }

    /// Nothing more will be heard.
    pub fn stop(&mut self)
        ensures { self.new ≡ record self.old { left = 0 } }
    {
        self.left = 0;
    }

    /// A socket of a post was found ready, or empty.
    pub fn raise(&mut self, place: usize, socket: Socket, ready: bool)
        ensures { self.new ≡ with_seat self.old place (raised (seat_of self.old place) socket ready) }
    {
        if place < self.seats.len() {
            self.seats[place] = self.seats[place].raise(socket, ready);
        }
    }

    /// The charger's next event comes at this moment (milliseconds).
    pub fn expect(&mut self, place: usize, due: u64)
        ensures { self.new ≡ with_seat self.old place (record (seat_of self.old place) { due = due }) }
    {
        if place < self.seats.len() {
            self.seats[place].due = due;
        }
    }

    /// A connection was accepted. True where there was none, so that it is told as having come; where there was one, that one is
    /// told to be gone, and ends, and the new one waits.
    pub fn accept(&mut self, place: usize) -> bool
        ensures kept { self.new ≡ accepted self.old place (line_of self.old place) }
        ensures first { IsTrue result ↔ (line_of self.old place ≡ Line.Free) }
    {
        let first = self.line(place) == Line::Free;
        if first {
            self.set(place, Line::Held);
        } else {
            self.end(place, Line::Waiting);
        }
        first
    }

    /// A connection was made by dialing. It waits to be told.
    pub fn dial(&mut self, place: usize)
        ensures { self.new ≡ with_line self.old place Line.Waiting }
    {
        self.set(place, Line::Waiting);
    }

    /// The connection that waits is told as having come.
    pub fn settle(&mut self, place: usize)
        ensures { self.new ≡ with_line self.old place Line.Held }
    {
        self.set(place, Line::Held);
    }

    /// The connection ends that was told as having come. Answers whether there was one.
    pub fn close(&mut self, place: usize) -> bool
        ensures kept { self.new ≡ closed self.old place (line_of self.old place) }
        ensures held { IsTrue result ↔ (line_of self.old place ≡ Line.Held) }
    {
        let held = self.line(place) == Line::Held;
        if held {
            self.end(place, Line::Free);
        }
        held
    }

    /// The turn of a post went by, with this kind.
    pub fn pass(&mut self, place: usize, kind: Kind)
        ensures { self.new ≡ told self.old place kind }
    {
        self.last = place;
        if place < self.seats.len() {
            self.seats[place].last = kind;
        }
    }

    /// What is done at a moment by a wire that is to wait until another one at most (milliseconds).
    pub fn step(&self, now: u64, until: u64) -> Step
        ensures { IsStep self.now now until result }
    {
        if self.is_over() {
            return Step::Over;
        }
        if let Some((place, kind)) = self.turn(now) {
            return Step::Turn { place, kind };
        }
        if until <= now {
            return Step::Tick;
        }
        Step::Wait {
            moment: self.least_due(until),
        }
    }

    /// Whose turn it is: the first post of which something is due behind the last one, going round.
    fn turn(&self, now: u64) -> Option<(usize, Kind)>
        ensures found { IfSome result (λ turn. NextTurn self.now now turn.0 turn.1) }
        ensures none { IfNone result (NothingDue self.now now) }
    {
        let posts = self.seats.len();
        let behind = posts.min(self.last.saturating_add(1));
        match self.turn_in(now, behind, posts) {
            Some(turn) => Some(turn),
            None => self.turn_in(now, 0, behind),
        }
    }

    /// The first post of which something is due, of those from one place on and below another.
    fn turn_in(&self, now: u64, from: usize, to: usize) -> Option<(usize, Kind)>
        requires { to ≤ length self.now.seats }
        ensures found { IfSome result (λ turn. FirstTurn self.now now from to turn.0 turn.1) }
        ensures none { IfNone result (NoneIn self.now now from to) }
    {
        for place in from..to {
            if let Some(kind) = self.seats[place].next_kind(now) {
                return Some((place, kind));
            }
        }
        None
    }

    /// The least of a moment and those of the chargers' next events.
    fn least_due(&self, until: u64) -> u64
        ensures { LeastDue self.now until (length self.now.seats) result }
    {
        let mut least = until;
        for place in 0..self.seats.len() {
            least = least.min(self.seat(place).due);
        }
        least
    }

    /// A post, or one without a connection where there is no such post.
    fn seat(&self, place: usize) -> Seat
        ensures { result ≡ seat_of self.now place }
    {
        match self.seats.get(place) {
            Some(seat) => *seat,
            None => Seat::blank(),
        }
    }

    /// One connection more has ended.
    fn end(&mut self, place: usize, line: Line)
        ensures { self.new ≡ ended (with_line self.old place line) }
    {
        self.set(place, line);
        self.left = self.left.saturating_sub(1);
    }

    fn set(&mut self, place: usize, line: Line)
        ensures { self.new ≡ with_line self.old place line }
    {
        if place < self.seats.len() {
            self.seats[place].line = line;
        }
    }
}

/// So many posts without a connection.
fn blank_seats(posts: usize) -> ArrayVec<Seat, 8>
    requires { posts ≤ 8 }
    ensures { result.items ≡ (new_board posts 0).seats }
{
    let mut seats = ArrayVec::new();
    for _ in 0..posts {
        seats.push(Seat::blank());
    }
    seats
}
