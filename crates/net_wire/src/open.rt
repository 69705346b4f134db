//! A wire that was started.

ghost use Rattle.std.specs.Prelude.{◌≡◌, ◌≤◌, ◌<◌, length, IfOk, IfSome};
ghost use Rattle.charge_world.specs.Outside.{IsOfPosts, HasCount, IsPost, posts_of};
ghost use Rattle.net_wire.specs.Posts.{posts_in};

use crate::ears::{EARS, Ears};
use crate::post::Post;
use crate::sockets::{connect, open_car, open_post, watch};
use crate::trouble::{Attempt, Trouble};
use charge_world::{Heard, Order, Ports, What};
use mio::net::TcpStream;
use mio::{Events, Poll, Token};
use std::alloc::Global;
use std::io::{ErrorKind, Read, Write};
use std::net::{Net, Shutdown, SocketAddr};
use std::random::RandomSource;
use std::time::{Clock, Duration, Instant};
use std::{io, net};
use wire_events::{Board, Kind, Line, Socket, Step, key_of, piece_or_end, token_of};

/// How many sockets are told of at once.
const EVENTS: usize = 32;

/// The sockets and chargers of a wire that was started, and how they stand. Moments are milliseconds since its start.
#[derive(Drop)]
pub(crate) struct OpenWire {
    board: Board,
    posts: Vec<Post>,
    poll: Poll,
    events: Events,
    ears: Option<Ears>,
    stopped: bool,
    since: Instant,
}

/// What a wait needs: the sockets to wait for, room for what they tell, and the moment from which on time is counted.
fn waiting<R: Net + Clock>(rt: &R, alloc: Global) -> io::Result<(Poll, Events, Instant)> {
    let poll = Poll::new(rt)?;
    let events = Events::with_capacity(alloc, EVENTS)?;
    let since = Instant::now(rt)?;
    Ok((poll, events, since))
}

impl OpenWire {
    /// Opens the sockets of these ports. One that is stoppable listens to standard input too, where it can.
    pub(crate) fn start<R: Net<Stream = net::TcpStream> + Clock>(
        rt: &R,
        alloc: Global,
        ports: &Ports,
        stoppable: bool,
    ) -> Result<OpenWire, Trouble>
        ensures { IfOk result (λ wire. posts_in wire ≡ posts_of ports.now) }
    {
        let (poll, events, since) = waiting(rt, alloc).map_err(Trouble::waiting)?;
        let ears = if stoppable {
            Ears::open(poll.registry())
        } else {
            None
        };
        let mut posts = Vec::new(alloc);
        let board = match ports {
            Ports::Posts { pairs, sessions } => {
                for (place, pair) in pairs.as_slice().iter().enumerate() {
                    keep_post(&mut posts, open_post(rt, poll.registry(), place, *pair)?)?;
                }
                Board::new(pairs.len(), *sessions)
            }
            Ports::Car { tcp: _, sdp } => {
                keep_post(&mut posts, open_car(rt, poll.registry(), *sdp)?)?;
                Board::new(1, 1)
            }
        };
        let mut wire = OpenWire {
            board,
            posts,
            poll,
            events,
            ears,
            stopped: false,
            since,
        };
        if let Ports::Car { tcp, sdp: 0 } = ports {
            wire.dial(rt, *tcp)?;
        }
        Ok(wire)
    }

    /// The moment.
    fn now<R: Clock>(&self, rt: &R) -> io::Result<u64> {
        let elapsed = self.since.elapsed(rt)?;
        Ok(u64::try_from(elapsed.as_millis()).unwrap_or(u64::MAX))
    }

    /// Waits until a socket is ready or the time is up, and notes which are ready, and whether somebody asks to stop.
    fn gather(&mut self, limit: Duration) -> io::Result<()>
        ensures { posts_in self.new ≡ posts_in self.old }
    {
        self.poll.poll(&mut self.events, Some(limit))?;
        note_ready(&mut self.board, &self.events);
        if tells_of(&self.events, EARS) && self.is_asked_to_stop() {
            self.stopped = true;
            self.board.stop();
        }
        Ok(())
    }

    /// Whether standard input, which was found ready, asks to stop.
    fn is_asked_to_stop(&mut self) -> bool
        ensures { posts_in self.new ≡ posts_in self.old }
    {
        match &mut self.ears {
            Some(ears) => ears.hear(self.poll.registry()),
            None => false,
        }
    }

    /// Whether standard input may ask to stop.
    pub(crate) fn is_stoppable(&self) -> bool {
        self.ears.is_some()
    }

    /// Whether standard input asked to stop.
    pub(crate) fn is_stopped(&self) -> bool {
        self.stopped
    }

    /// The other end of the connection of a post.
    pub(crate) fn peer(&self, place: usize) -> Option<SocketAddr> {
        let stream = self.posts.get(place)?.stream.as_ref()?;
        stream.peer_addr().ok()
    }

    /// Waits for one event, at most until a moment.
    pub(crate) fn hear<R: Net + Clock + RandomSource>(
        &mut self,
        rt: &R,
        until: u64,
        room: &mut [u8],
    ) -> io::Result<Heard>
        requires { length room.old ≡ 4096 }
        ensures posts { posts_in self.new ≡ posts_in self.old }
        ensures post { IfOk result (λ heard. IsOfPosts (posts_in self.old) heard.what) }
        ensures count { IfOk result (λ heard. HasCount heard.what) }
    {
        self.gather(Duration::ZERO)?;
        for _ in 0..u64::MAX {
            let at = self.now(rt)?;
            match self.board.step(at, until) {
                Step::Over => {
                    return Ok(Heard {
                        at,
                        what: What::Over,
                    });
                }
                Step::Tick => {
                    return Ok(Heard {
                        at,
                        what: What::Tick,
                    });
                }
                Step::Wait { moment } => self.gather(Duration::from_millis(moment - at))?,
                Step::Turn { place, kind } => {
                    self.board.pass(place, kind);
                    if let Some(what) = self.tell(rt, place, kind, at, room)? {
                        return Ok(Heard { at, what });
                    }
                }
            }
        }
        Err(io::Error::from(ErrorKind::TimedOut))
    }

    /// What there is to tell of this kind of the post at a place. `None` where a socket was ready for nothing.
    fn tell<R: Net + Clock + RandomSource>(
        &mut self,
        rt: &R,
        place: usize,
        kind: Kind,
        at: u64,
        room: &mut [u8],
    ) -> io::Result<Option<What>>
        requires room { length room.old ≡ 4096 }
        requires place { place < posts_in self.old }
        ensures posts { posts_in self.new ≡ posts_in self.old }
        ensures post { IfOk result (λ told. IfSome told (IsOfPosts (posts_in self.old))) }
        ensures count { IfOk result (λ told. IfSome told HasCount) }
    {
        match kind {
            Kind::Came => self.tell_came(rt, place, at),
            Kind::Plant => Ok(self.tell_plant(place, at)),
            Kind::Accept => self.tell_accepted(rt, place, at),
            Kind::Datagram => Ok(self.tell_datagram(place, room)),
            Kind::Bytes => Ok(self.tell_bytes(place, room)),
        }
    }

    /// The number of the post at a place.
    fn post_at(&self, place: usize) -> u8
        requires { place < posts_in self.now }
        ensures { IsPost (posts_in self.now) result }
    {
        let _ = &self.board.posts();
        place as u8 + 1
    }

    /// The connection that waited to be told.
    fn tell_came<R: RandomSource>(
        &mut self,
        rt: &R,
        place: usize,
        at: u64,
    ) -> io::Result<Option<What>>
        requires { place < posts_in self.old }
        ensures posts { posts_in self.new ≡ posts_in self.old }
        ensures post { IfOk result (λ told. IfSome told (IsOfPosts (posts_in self.old))) }
        ensures count { IfOk result (λ told. IfSome told HasCount) }
    {
        let token = token(rt)?;
        let post = self.post_at(place);
        self.board.settle(place);
        self.welcome(place, at);
        Ok(Some(What::Came { post, token }))
    }

    /// The charger hears that a car came.
    fn welcome(&mut self, place: usize, at: u64)
        ensures { posts_in self.new ≡ posts_in self.old }
    {
        if let Some(post) = self.posts.get_mut(place) {
            if let Some(charger) = &mut post.charger {
                charger.came(at);
                let due = charger.due();
                self.board.expect(place, due);
            }
        }
    }

    /// The charger's next event.
    fn tell_plant(&mut self, place: usize, at: u64) -> Option<What>
        requires { place < posts_in self.old }
        ensures posts { posts_in self.new ≡ posts_in self.old }
        ensures post { IfSome result (IsOfPosts (posts_in self.old)) }
        ensures count { IfSome result HasCount }
    {
        let post = self.post_at(place);
        let charger = self.posts.get_mut(place)?.charger.as_mut()?;
        let event = charger.next(at);
        let due = charger.due();
        self.board.expect(place, due);
        Some(What::Plant {
            post,
            event: event?,
        })
    }

    /// A connection that was accepted: that it came, or that the one before it is gone.
    fn tell_accepted<R: RandomSource>(
        &mut self,
        rt: &R,
        place: usize,
        at: u64,
    ) -> io::Result<Option<What>>
        requires { place < posts_in self.old }
        ensures posts { posts_in self.new ≡ posts_in self.old }
        ensures post { IfOk result (λ told. IfSome told (IsOfPosts (posts_in self.old))) }
        ensures count { IfOk result (λ told. IfSome told HasCount) }
    {
        let token = token(rt)?;
        let post = self.post_at(place);
        let Some(stream) = self.accept(place)? else {
            return Ok(None);
        };
        self.keep(place, stream);
        if self.board.accept(place) {
            self.welcome(place, at);
            Ok(Some(What::Came { post, token }))
        } else {
            Ok(Some(What::Gone { post }))
        }
    }

    /// The next connection that waits at a post, watched from now on.
    fn accept(&mut self, place: usize) -> io::Result<Option<TcpStream>>
        ensures { posts_in self.new ≡ posts_in self.old }
    {
        if place >= self.board.posts() {
            return Ok(None);
        }
        let Some(post) = self.posts.get(place) else {
            return Ok(None);
        };
        let Some(listener) = &post.listener else {
            return Ok(None);
        };
        match listener.accept() {
            Ok((mut stream, _)) => Ok(
                watch(self.poll.registry(), place, &mut stream)
                    .is_ok()
                    .then_some(stream),
            ),
            Err(error) => match error.kind() {
                ErrorKind::WouldBlock => {
                    self.board.raise(place, Socket::Listener, false);
                    Ok(None)
                }
                ErrorKind::Interrupted | ErrorKind::ConnectionAborted => Ok(None),
                _ => Err(error),
            },
        }
    }

    /// Keeps a connection in place of the one before.
    fn keep(&mut self, place: usize, stream: TcpStream)
        ensures { posts_in self.new ≡ posts_in self.old }
    {
        if let Some(post) = self.posts.get_mut(place) {
            post.stream = Some(stream);
        }
        self.board.raise(place, Socket::Stream, true);
    }

    /// A datagram that came.
    fn tell_datagram(&mut self, place: usize, room: &mut [u8]) -> Option<What>
        requires room { length room.old ≡ 4096 }
        requires place { place < posts_in self.old }
        ensures posts { posts_in self.new ≡ posts_in self.old }
        ensures post { IfSome result (IsOfPosts (posts_in self.old)) }
        ensures count { IfSome result HasCount }
    {
        let post = self.post_at(place);
        match self.receive(place, room) {
            Some(n) => Some(What::Datagram { post, n }),
            None => None,
        }
    }

    /// Takes a datagram that came from the post's partner, and says how many bytes it has.
    fn receive(&mut self, place: usize, room: &mut [u8]) -> Option<u32>
        requires { length room.old ≡ 4096 }
        ensures posts { posts_in self.new ≡ posts_in self.old }
        ensures bound { IfSome result (λ n. n ≤ 4096) }
    {
        let Some(post) = self.posts.get_mut(place) else {
            return None;
        };
        let Some(socket) = &post.discovery else {
            return None;
        };
        let Ok((n, sender)) = socket.recv_from(room) else {
            self.board.raise(place, Socket::Discovery, false);
            return None;
        };
        if post.partner.hears(sender) {
            Some(n as u32)
        } else {
            None
        }
    }

    /// The bytes that came, or that the connection ended.
    fn tell_bytes(&mut self, place: usize, room: &mut [u8]) -> Option<What>
        requires room { length room.old ≡ 4096 }
        requires place { place < posts_in self.old }
        ensures posts { posts_in self.new ≡ posts_in self.old }
        ensures post { IfSome result (IsOfPosts (posts_in self.old)) }
        ensures count { IfSome result HasCount }
    {
        let post = self.post_at(place);
        let stream = self.posts.get_mut(place)?.stream.as_mut()?;
        let n = match stream.read(room) {
            Ok(n) => n,
            Err(error) => match error.kind() {
                ErrorKind::WouldBlock => {
                    self.board.raise(place, Socket::Stream, false);
                    return None;
                }
                ErrorKind::Interrupted => return None,
                _ => 0,
            },
        };
        if n == 0 {
            self.hang_up(place);
        }
        Some(piece_or_end(post, n))
    }

    /// Ends the connection that was told, if there is one.
    pub(crate) fn hang_up(&mut self, place: usize)
        ensures { posts_in self.new ≡ posts_in self.old }
    {
        if !self.board.close(place) {
            return;
        }
        if let Some(post) = self.posts.get_mut(place) {
            if let Some(stream) = &post.stream {
                let _ = stream.shutdown(Shutdown::Write);
            }
            post.stream = None;
        }
    }

    /// Sends all of these bytes on the connection that was told. It never waits: a buffer without room for all of them fails.
    pub(crate) fn send(&mut self, place: usize, bytes: &[u8]) -> io::Result<()>
        ensures { posts_in self.new ≡ posts_in self.old }
    {
        if self.board.line(place) != Line::Held {
            return Err(io::Error::from(ErrorKind::NotConnected));
        }
        let Some(stream) = self
            .posts
            .get_mut(place)
            .and_then(|post| post.stream.as_mut())
        else {
            return Err(io::Error::from(ErrorKind::NotConnected));
        };
        if stream.write(bytes)? == bytes.len() {
            Ok(())
        } else {
            Err(io::Error::from(ErrorKind::WouldBlock))
        }
    }

    /// Sends a datagram to the post's partner.
    pub(crate) fn answer(&mut self, place: usize, bytes: &[u8]) -> io::Result<()>
        ensures { posts_in self.new ≡ posts_in self.old }
    {
        let post = self.posts.get(place);
        let socket = post.and_then(|post| post.discovery.as_ref());
        let address = post.and_then(|post| post.partner.address());
        match (socket, address) {
            (Some(socket), Some(address)) if socket.send_to(bytes, address)? == bytes.len() => Ok(
                (),
            ),
            _ => Err(io::Error::from(ErrorKind::NotConnected)),
        }
    }

    /// Gives an order to the charger of a post. A car's contactor takes each order, and tells nothing.
    pub(crate) fn drive<R: Clock>(&mut self, rt: &R, place: usize, order: Order) -> io::Result<()>
        ensures { posts_in self.new ≡ posts_in self.old }
    {
        let at = self.now(rt)?;
        let Some(post) = self.posts.get_mut(place) else {
            return Err(io::Error::from(ErrorKind::NotFound));
        };
        if let Some(charger) = &mut post.charger {
            charger.order(order, at);
            let due = charger.due();
            self.board.expect(place, due);
        }
        Ok(())
    }

    /// Connects a car that has no connection. The connection waits to be told.
    pub(crate) fn dial<R: Net<Stream = net::TcpStream>>(
        &mut self,
        rt: &R,
        port: u16,
    ) -> Result<(), Trouble>
        ensures { posts_in self.new ≡ posts_in self.old }
    {
        match self.connect(rt, port) {
            Ok(()) => Ok(()),
            Err(reason) => Err(Trouble {
                attempt: Attempt::Connect { port },
                reason,
            }),
        }
    }

    fn connect<R: Net<Stream = net::TcpStream>>(&mut self, rt: &R, port: u16) -> io::Result<()>
        ensures { posts_in self.new ≡ posts_in self.old }
    {
        let is_station = self
            .posts
            .first()
            .is_some_and(|post| post.listener.is_some());
        if is_station || self.board.line(0) != Line::Free {
            return Err(io::Error::from(ErrorKind::AlreadyExists));
        }
        let mut stream = connect(rt, port)?;
        watch(self.poll.registry(), 0, &mut stream)?;
        self.keep(0, stream);
        self.board.dial(0);
        Ok(())
    }
}

/// Keeps a post behind the others.
fn keep_post(posts: &mut Vec<Post>, post: Post) -> Result<(), Trouble> {
    match posts.push(post) {
        Ok(()) => Ok(()),
        Err(none) => Err(Trouble::waiting(io::Error::from(none))),
    }
}

/// Whether one of these events is that of the socket with this number.
fn tells_of(events: &Events, number: usize) -> bool {
    events.iter().any(|event| event.token() == Token(number))
}

/// Notes which sockets are ready.
fn note_ready(board: &mut Board, events: &Events)
    ensures { length board.new.seats ≡ length board.old.seats }
{
    for event in events {
        let key = key_of(event.token().0);
        if event.is_readable() || event.is_read_closed() || event.is_error() {
            board.raise(key.place, key.socket, true);
        }
    }
}

/// A random token.
fn token<R: RandomSource>(rt: &R) -> io::Result<u64> {
    let mut bytes = [0u8; 8];
    rt.fill_bytes(&mut bytes)?;
    Ok(token_of(bytes))
}
