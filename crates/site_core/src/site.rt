//! A site in memory.

ghost use Rattle.std.specs.Prelude.{◌≡◌, ◌≤◌, ◌-◌, [], IfOk, vec_len};
ghost use Rattle.session_words.specs.Plans.{IsSitePlan};
ghost use Rattle.post_spec.specs.Codecs.{codecs};
ghost use Rattle.site_posts.specs.Filling.{at};
ghost use Rattle.site_turns.specs.Ending.{AreMadeOf};
ghost use Rattle.site_turns.specs.SoFar.{IsSoFar};
ghost use Rattle.site_core.specs.Hearing.{MayHear};

use endpoint::{Desk, SoFar};
use session_words::SitePlan;
use site_codec::Codec;
use site_posts::{Place, PostReport};
use std::alloc::Global;
use trace_lines::NoMemory;

/// A site of one to eight posts, with the codecs of its messages. All memory of serving is taken when it is made; a site of eight posts
/// takes less than 2 MB.
#[derive(Drop)]
pub struct Site<C> {
    pub(crate) desk: Desk<C>,
    pub(crate) places: Vec<Place>,
    pub(crate) limit: u32,
    pub(crate) turns: u64,
    pub(crate) so_far: SoFar,
}

/// Posts of these plans that heard nothing yet.
fn places_made(alloc: Global, plan: &SitePlan) -> Result<Vec<Place>, NoMemory>
    requires { IsSitePlan plan.now }
    ensures made { IfOk result (λ places. AreMadeOf plan.now places.items plan.now.limit plan.now.turns) }
{
    let mut places = Vec::new(alloc);
    for post in plan.post.as_slice() {
        let place = Place::make(alloc, post)?;
        places.push(place)?;
    }
    Ok(places)
}

impl<C: Codec + Drop> Site<C> {
    /// A site of this plan that heard nothing yet. It takes all the memory that serving needs.
    pub fn make(alloc: Global, codec: C, plan: &SitePlan) -> Result<Site<C>, NoMemory>
        requires { IsSitePlan plan.now }
        ensures made { IfOk result (λ site. AreMadeOf plan.now site.places.items site.limit site.turns) }
        ensures waits { IfOk result (λ site. MayHear C.reads site.places.items) }
        ensures run { IfOk result (λ site. IsSoFar (codecs C.negotiates C.reads C.encodes) plan.now site.so_far site.places.items []) }
    {
        let desk = Desk::make(alloc, codec)?;
        let places = places_made(alloc, plan)?;
        Ok(Site {
            desk,
            places,
            limit: plan.limit,
            turns: plan.turns,
            so_far: SoFar::nothing(),
        })
    }
}

impl<C> Site<C> {
    /// What the site counted of a post, by its number.
    pub fn report(&self, post: u8) -> PostReport
        requires least { 1 ≤ post }
        requires most { post ≤ vec_len self.now.places }
        ensures { result ≡ (at self.now.places.items (post - 1)).report }
    {
        let place = &self.places[usize::from(post) - 1];
        place.report
    }
}
