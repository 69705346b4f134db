//! The shares of a site's posts.

ghost use Rattle.std.specs.Prelude.{◌≡◌, ◌≤◌, ◌<◌, ◌+◌, ◌^◌, sum};
ghost use Rattle.power_share.specs.Sharing.{Sharing, IsPost, IsShare, IsShown, told_to_others, unasked, asked, told_so, released, at_post};

use crate::level::level_of;
use std::marker::Model;

/// The greatest number of posts.
const POSTS: usize = 8;

/// What the posts of a site ask for and were told last, in watts.
///
/// Contracts see the limit, the number of posts, and both lists, by post.
#[derive(Drop)]
pub struct Shares {
    limit: u32,
    posts: u8,
    asks: [u32; POSTS],
    told: [u32; POSTS],
}

impl Model for Shares {
    ghost use Rattle.std.specs.Prelude.{◌≤◌, sum};
    ghost use Rattle.power_share.specs.Sharing.{Sharing};

    ghost Value = { Sharing };

    ghost view = { λ s. record { limit = s.limit; posts = s.posts; asks = s.asks; told = s.told } };

    ghost invariant = { λ s. (s.posts ≤ 8) × (sum s.told ≤ s.limit) };
}

impl Shares {
    /// A site with this limit (watts) and 1 to 8 posts, none of which asks (own).
    pub fn new(limit: u32, posts: u8) -> Shares
        requires some { 1 ≤ posts }
        requires most { posts ≤ 8 }
        ensures { result ≡ unasked limit posts }
    {
        Shares {
            limit,
            posts,
            asks: [0; POSTS],
            told: [0; POSTS],
        }
    }

    /// From now on the post, one of the site's, asks for these watts.
    pub fn ask(&mut self, post: u8, watts: u32)
        requires { IsPost self.old post }
        ensures { self.new ≡ asked self.old post watts }
    {
        self.asks[usize::from(post) - 1] = watts;
    }

    /// Tells the post its share of now, in watts: the least of its ask, the level, and what the others' told watts leave
    /// of the limit (own).
    pub fn tell(&mut self, post: u8) -> u32
        requires { IsPost self.old post }
        ensures shown { IsShown self.old post result }
        ensures told { self.new ≡ told_so self.old post result }
        // The told watts never add up to more than the limit.
        ensures within { sum self.new.told ≤ self.new.limit }
    {
        let watts = share_of(self.limit, &self.asks, &self.told, post);
        self.told[usize::from(post) - 1] = watts;
        watts
    }

    /// The watts that the post was told last, 0 where it was told none since it was released.
    pub fn told(&self, post: u8) -> u32
        requires { IsPost self.now post }
        ensures value { result ≡ at_post self.now.told post }
        ensures within { sum self.now.told ≤ self.now.limit }
    {
        let place = usize::from(post) - 1;
        self.told[place]
    }

    /// The session of the post is over: it asks no more, and its watts are free.
    pub fn release(&mut self, post: u8)
        requires { IsPost self.old post }
        ensures { self.new ≡ released self.old post }
    {
        self.asks[usize::from(post) - 1] = 0;
        self.told[usize::from(post) - 1] = 0;
    }

    /// What `tell` would answer after `ask` of these watts.
    pub fn shown(&self, post: u8, watts: u32) -> u32
        requires { IsPost self.now post }
        ensures { IsShown (asked self.now post watts) post result }
    {
        let mut asks = self.asks;
        asks[usize::from(post) - 1] = watts;
        share_of(self.limit, &asks, &self.told, post)
    }
}

/// What the posts but this one were told together.
fn others_told(told: &[u32; POSTS], post: u8) -> u32
    requires some { 1 ≤ post }
    requires most { post ≤ 8 }
    requires fits { sum told.now < 2 ^ 32 }
    ensures { result ≡ told_to_others told.now post }
{
    let all: u32 = told.iter().sum();
    all - told[usize::from(post) - 1]
}

/// The share of a post, from what all ask for and were told.
fn share_of(limit: u32, asks: &[u32; POSTS], told: &[u32; POSTS], post: u8) -> u32
    requires some { 1 ≤ post }
    requires most { post ≤ 8 }
    requires within { sum told.now ≤ limit }
    ensures share { IsShare limit asks.now told.now post result }
    ensures left { result + told_to_others told.now post ≤ limit }
{
    let level = level_of(limit, asks);
    let ask = asks[usize::from(post) - 1];
    ask.min(level).min(limit - others_told(told, post))
}
