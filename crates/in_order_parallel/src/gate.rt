//! The gate that each item passes before its work begins.

/// What each item passes before its work begins. A gate can count the items or detect that two of them are
/// worked on at once, and has no influence on the answers.
pub trait Gate {
    /// Called before the work at the item with this place in the slice, counted from 0, on the thread that
    /// does this work.
    fn pass(&self, item: usize);
}

/// The gate that does nothing.
pub struct OpenGate;

impl Gate for OpenGate {
    fn pass(&self, _item: usize) {}
}
