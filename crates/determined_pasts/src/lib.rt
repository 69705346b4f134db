//! A law of foreign traces (own): what the posts of a site went by in a trace is one thing.
//!
//! Proved: `posts_are_one`: there is at most one list of posts behind a trace, for any codecs that judge each payload in one way.
#![tactic(auto)]

ghost use Rattle.faultless_pasts.specs.Faultless.{told_codecs};
ghost use Rattle.determined_pasts.specs.Posts.{PostsAreOne};

use audit_streams::ToldReader;

/// Behind a trace there is at most one list of posts.
pub fn posts_are_one<R: ToldReader>()
    ensures { PostsAreOne (told_codecs R.negotiates R.reads R.encodes R.responds R.watts) }
{}
