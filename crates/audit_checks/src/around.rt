//! What is told of an entry.

/// What is told of an entry for a post, beside what is kept of the post.
#[derive(Clone, Copy)]
pub struct Around {
    /// PowerDelivery Start was the first word without a reply before the entry.
    pub starting: bool,
    /// It is behind it.
    pub starts: bool,
    /// Something was heard before the entry.
    pub begun: bool,
    /// The entry is the last of its block.
    pub ends: bool,
    /// It is the last of the trace.
    pub last: bool,
    /// With it the trace ends in orders to open alone, behind one of this post that failed.
    pub alone: bool,
    /// Where it is a reply, its watts are those that the post was told.
    pub writes: bool,
    /// Behind it the watts of all posts are above the limit of the site.
    pub above: bool,
    /// Its block ends with it, and a word of the post has no reply.
    pub left: bool,
}
