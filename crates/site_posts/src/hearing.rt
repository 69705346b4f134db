//! What a hearing is for each post, and until when they wait for the next.

ghost use Rattle.std.specs.Prelude.{◌≡◌, ◌≤◌, ℕ, List, length, All, min, fold, map};
ghost use Rattle.session_timers.specs.Due.{never};
ghost use Rattle.post_spec.specs.Steps.{event_at as event_for};
ghost use Rattle.site_codec.specs.Resting.{IsReadOut};
ghost use Rattle.site_codec.specs.Views.{event_of};
ghost use Rattle.site_posts.specs.Places.{heard_place, HeardAll, due_at};

use crate::place::Place;
use charge_world::{Heard, What};
use site_codec::secc_machine::PostEvent;

/// What a hearing is for post k.
fn event_at(k: u8, what: What) -> PostEvent
    ensures { (bytes : List ℕ) → event_of result bytes ≡ event_for k what bytes }
{
    match what {
        What::Came { post, token } if post == k => PostEvent::Came { token },
        What::Bytes { post, n: _ } if post == k => PostEvent::Bytes,
        What::Gone { post } if post == k => PostEvent::Gone,
        What::Datagram { post, n: _ } if post == k => PostEvent::Datagram,
        What::Plant { post, event } if post == k => PostEvent::Plant(event),
        What::Over => PostEvent::Over,
        _ => PostEvent::Clock,
    }
}

impl Place {
    /// Hears what is heard at post k: one at another post is a look at the clock.
    fn hear(&mut self, k: u8, now: u64, what: What, bytes: &[u8])
        requires short { length bytes.now ≤ 4096 }
        requires read { IsReadOut self.old.post.session }
        ensures { self.new ≡ heard_place k now what bytes.now self.old }
    {
        let event = event_at(k, what);
        let came = matches!(&event, PostEvent::Came { .. });
        self.post.hear(now, event, bytes);
        if came {
            self.report.sessions = self.report.sessions.saturating_add(1);
        }
    }
}

/// Each post hears what was heard, at this moment and with these bytes. Each has read all frames that came before.
pub fn hear_all(places: &mut [Place], now: u64, heard: &Heard, bytes: &[u8])
    requires few { length places.old ≤ 8 }
    requires short { length bytes.now ≤ 4096 }
    requires read { All (λ p. IsReadOut p.post.session) places.old }
    ensures { HeardAll now heard.now.what bytes.now places.old places.new }
{
    for i in 0..places.len() {
        places[i].hear(i as u8 + 1, now, heard.what, bytes);
    }
}

/// The least of the moments at which the posts are due (milliseconds), `u64::MAX` where none is.
pub fn until(places: &[Place]) -> u64
    ensures { result ≡ fold min never (map due_at places.now) }
{
    let mut least = u64::MAX;
    for i in 0..places.len() {
        let place = &places[i];
        least = least.min(place.post.next_due());
    }
    least
}
