//! The moments at which events come.

ghost use Rattle.std.specs.Prelude.{◌≡◌, ◌+◌, ◌<◌, IfSome, IfNone};
ghost use Rattle.plant_sim.specs.Charger.{later, IsFirst, NothingComes};
ghost use Rattle.plant_sim.specs.Search.{FoundBelow};

/// The number of places.
pub(crate) const PLACES: usize = 8;

/// The places of the events. Of events at one moment that of the earlier place comes first.
#[derive(Clone, Copy)]
pub(crate) enum Place {
    /// Pilot C.
    Pilot,
    /// Isolation Invalid.
    Isolation,
    /// Somebody paid.
    Paid,
    /// Isolation Valid.
    Valid,
    /// Measured under the limits.
    Measured,
    /// Feedback closed.
    Closed,
    /// Feedback open.
    Opened,
    /// Measured with nothing at the outlet.
    Dead,
}

/// So many milliseconds after a moment, if such a moment comes.
pub(crate) fn later_by(now: u64, delay: u64) -> Option<u64>
    ensures { result ≡ later now delay }
{
    now.checked_add(delay)
}

/// The event that comes first: its place and its moment.
pub(crate) fn first(moments: &[Option<u64>; PLACES]) -> Option<(usize, u64)>
    ensures some { IfSome result (λ found. IsFirst moments.now found.0 found.1) }
    ensures place { IfSome result (λ found. found.0 < 8) }
    ensures none { IfNone result (NothingComes moments.now) }
{
    let mut found = None;
    for place in 0..PLACES {
        found = earlier(moments, place, found);
    }
    found
}

/// The event found before this place, or that of this place where it comes earlier.
fn earlier(
    moments: &[Option<u64>; PLACES],
    place: usize,
    found: Option<(usize, u64)>,
) -> Option<(usize, u64)>
    requires place { place < 8 }
    requires found { FoundBelow moments.now place found }
    ensures { FoundBelow moments.now (place + 1) result }
{
    match (found, moments[place]) {
        (found, None) => found,
        (None, Some(moment)) => Some((place, moment)),
        (Some((at, least)), Some(moment)) => {
            if moment < least {
                Some((place, moment))
            } else {
                Some((at, least))
            }
        }
    }
}
