//! One post: its connection, and which of its sockets are ready.

ghost use Rattle.std.specs.Prelude.{◌≡◌, ◌≤◌, IfSome, IfNone};
ghost use Rattle.wire_events.specs.Seats.{blank, kind_at, is_due, NextKind, raised, NoKindDue, FirstKind, NoKindIn};

/// How the connection of a post stands.
#[derive(Clone, Copy, Default, PartialEq, Eq)]
pub enum Line {
    /// There is none.
    #[default]
    Free,
    /// It was told that it came.
    Held,
    /// There is one, which isn't told yet.
    Waiting,
}

/// The sockets of a post.
#[derive(Clone, Copy)]
pub enum Socket {
    Listener,
    Stream,
    Discovery,
}

/// What may be told of a post, in the order in which it takes turns.
#[derive(Clone, Copy, Default)]
pub enum Kind {
    /// A connection that isn't told yet.
    #[default]
    Came,
    /// An event of the charger.
    Plant,
    /// A connection that waits to be accepted.
    Accept,
    Datagram,
    /// Bytes, or the end of the connection.
    Bytes,
}

/// The number of kinds.
const KINDS: usize = 5;

impl Kind {
    /// The kind at a place of that order, the last one behind them.
    fn at(place: usize) -> Kind
        ensures { result ≡ kind_at place }
    {
        match place {
            0 => Kind::Came,
            1 => Kind::Plant,
            2 => Kind::Accept,
            3 => Kind::Datagram,
            _ => Kind::Bytes,
        }
    }
}

/// One post: its connection, which of its sockets were found ready and not empty since, the moment of the charger's next event
/// (milliseconds), and the kind told last.
#[derive(Clone, Copy, Default)]
pub struct Seat {
    pub line: Line,
    pub listener: bool,
    pub stream: bool,
    pub discovery: bool,
    pub due: u64,
    pub last: Kind,
}

impl Seat {
    /// A post without a connection, of which nothing is due.
    pub(crate) fn blank() -> Seat
        ensures { result ≡ blank }
    {
        Seat {
            line: Line::Free,
            listener: false,
            stream: false,
            discovery: false,
            due: u64::MAX,
            last: Kind::Bytes,
        }
    }

    /// The same post with a socket that is ready, or that isn't.
    pub(crate) fn raise(&self, socket: Socket, ready: bool) -> Seat
        ensures { result ≡ raised self.now socket ready }
    {
        let mut seat = *self;
        match socket {
            Socket::Listener => seat.listener = ready,
            Socket::Stream => seat.stream = ready,
            Socket::Discovery => seat.discovery = ready,
        }
        seat
    }

    /// Whether something of this kind can be told at a moment (milliseconds).
    pub(crate) fn is_due(&self, kind: Kind, now: u64) -> bool
        ensures { result ≡ is_due self.now now kind }
    {
        match kind {
            Kind::Came => self.line == Line::Waiting,
            Kind::Plant => self.due <= now,
            Kind::Accept => self.listener && self.line != Line::Waiting,
            Kind::Datagram => self.discovery,
            Kind::Bytes => self.stream && self.line == Line::Held,
        }
    }

    /// The kind whose turn it is: the first that is due behind the one told last, going round. `None` where none is.
    pub(crate) fn next_kind(&self, now: u64) -> Option<Kind>
        ensures found { IfSome result (NextKind self.now now) }
        ensures none { IfNone result (NoKindDue self.now now) }
    {
        let behind = self.last as usize + 1;
        match self.kind_in(now, behind, KINDS) {
            Some(kind) => Some(kind),
            None => self.kind_in(now, 0, behind),
        }
    }

    /// The first kind that is due of those with numbers from one on and below another.
    fn kind_in(&self, now: u64, from: usize, to: usize) -> Option<Kind>
        requires { to ≤ 5 }
        ensures found { IfSome result (FirstKind self.now now from to) }
        ensures none { IfNone result (NoKindIn self.now now from to) }
    {
        for k in from..to {
            let kind = Kind::at(k);
            if self.is_due(kind, now) {
                return Some(kind);
            }
        }
        None
    }
}
