//! What is kept of one post.

ghost use Rattle.std.specs.Prelude.{◌≡◌, ℕ, List, [], ◌∷◌, true, false};
ghost use Rattle.charge_world.specs.declared.entry.Entry.{Entry};
ghost use Rattle.post_spec.specs.Contactors.{feedback_in};
ghost use Rattle.audit_contactors.specs.Values.{AreOf};
ghost use Rattle.audit_contactors.specs.Changes.{at_first, heard_by, driven, feedback_at, behind};

use charge_world::{Entry, Order, PlantEvent, What};
use contactor::standing_behind;
use session_words::Standing;

/// What is kept of the contactor of a post.
#[derive(Clone, Copy)]
pub struct ContactorValues {
    /// How it stands, by its last order and the feedback since.
    pub standing: Standing,
    /// Close was ordered, taken or failed, and no Open was taken since.
    pub live: bool,
    /// The last order that its charger took was Close.
    pub closed: bool,
    /// An Open failed behind the last Close that was taken.
    pub opened_in_vain: bool,
    /// How it stood before the newest hearing.
    pub stood: Standing,
    /// The post did something since that hearing.
    pub acted: bool,
    /// Open was ordered behind the last thing that was heard or lost, and behind the end of the post's session.
    pub ends_opened: bool,
}

/// What an event of a charger says of its contactor.
fn feedback_in(event: &PlantEvent) -> Option<bool>
    ensures { result ≡ feedback_in event.now }
{
    match event {
        PlantEvent::Feedback { closed } => Some(*closed),
        PlantEvent::Pilot(_)
        | PlantEvent::Isolation(_)
        | PlantEvent::Measured { .. }
        | PlantEvent::Paid
        | PlantEvent::Emergency
        | PlantEvent::StopAsked
        | PlantEvent::RenewAsked => None,
    }
}

/// The feedback of a post's contactor in a hearing.
fn feedback_at(post: u8, what: &What) -> Option<bool>
    ensures { result ≡ feedback_at post what.now }
{
    match what {
        What::Plant { post: at, event } => if *at == post {
            feedback_in(event)
        } else {
            None
        },
        What::Came { .. }
        | What::Bytes { .. }
        | What::Gone { .. }
        | What::Datagram { .. }
        | What::Tick
        | What::Over => None,
    }
}

impl ContactorValues {
    /// Before any entry.
    pub fn new() -> ContactorValues
        ensures value { result ≡ at_first }
        ensures none { (post : ℕ) → AreOf post [] result }
    {
        ContactorValues {
            standing: Standing::Opened,
            live: false,
            closed: false,
            opened_in_vain: false,
            stood: Standing::Opened,
            acted: false,
            ends_opened: false,
        }
    }

    /// Behind a hearing.
    fn heard(self, feedback: Option<bool>) -> ContactorValues
        ensures { result ≡ heard_by feedback self }
    {
        let standing = match feedback {
            None => self.standing,
            Some(closed) => standing_behind(self.standing, closed),
        };
        ContactorValues {
            standing,
            stood: self.standing,
            acted: false,
            ends_opened: false,
            ..self
        }
    }

    /// Behind an order to its charger.
    fn driven(self, order: Order, taken: bool) -> ContactorValues
        ensures { result ≡ driven order taken self }
    {
        match (order, taken) {
            (Order::Open, true) => ContactorValues {
                standing: Standing::Opening,
                live: false,
                closed: false,
                acted: true,
                ends_opened: true,
                ..self
            },
            (Order::Open, false) => ContactorValues {
                standing: Standing::MustOpen,
                opened_in_vain: true,
                acted: true,
                ends_opened: true,
                ..self
            },
            (Order::Close, true) => ContactorValues {
                standing: Standing::Closing,
                live: true,
                closed: true,
                opened_in_vain: false,
                acted: true,
                ..self
            },
            (Order::Close, false) => ContactorValues {
                standing: Standing::MustOpen,
                live: true,
                acted: true,
                ..self
            },
            (Order::Limits { .. }, _) => ContactorValues {
                acted: true,
                ..self
            },
        }
    }

    /// Behind an act that is no order.
    fn acted(self) -> ContactorValues
        ensures { result ≡ record self { acted = true } }
    {
        ContactorValues {
            acted: true,
            ..self
        }
    }

    /// Behind the end of its session.
    fn ended(self) -> ContactorValues
        ensures { result ≡ record self { acted = true; ends_opened = false } }
    {
        ContactorValues {
            acted: true,
            ends_opened: false,
            ..self
        }
    }

    /// Behind an entry, for the post of this number.
    pub(crate) fn then(self, post: u8, entry: &Entry) -> ContactorValues
        ensures { result ≡ behind post entry.now self }
    {
        match entry {
            Entry::Heard { heard, .. } => self.heard(feedback_at(post, &heard.what)),
            Entry::Lost => ContactorValues {
                ends_opened: false,
                ..self
            },
            Entry::Sent { post: at, .. } => if *at == post { self.acted() } else { self },
            Entry::Answered { post: at, .. } => if *at == post { self.acted() } else { self },
            Entry::Drove {
                post: at,
                order,
                taken,
            } => if *at == post {
                self.driven(*order, *taken)
            } else {
                self
            },
            Entry::Dialed { .. } => self,
            Entry::Ended { post: at, .. } => if *at == post { self.ended() } else { self },
        }
    }

    /// Behind an entry, the next of the trace, for the post of this number.
    pub fn behind(self, post: u8, entry: &Entry) -> ContactorValues
        ensures { (past : List Entry) → AreOf post past self → AreOf post (entry.now ∷ past) result }
    {
        self.then(post, entry)
    }
}
