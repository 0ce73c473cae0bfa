//! The work that is done at each item.

/// Work that is done at each of many items, each by itself. A job that takes memory has its own allocator,
/// and its result says where it found none.
pub trait Job {
    /// What the work is done at.
    type In;

    /// The result of the work.
    type Out;

    /// At which items the work can be done.
    ghost can_go: { Self → Self.In → Type 0 };

    /// Which results an item may have.
    ghost gives: { Self → Self.In → Self.Out → Type 0 };

    /// Does the work at one item.
    fn go(&self, item: &Self::In) -> Self::Out
        requires { can_go self.now item.now }
        ensures { gives self.now item.now result };
}
