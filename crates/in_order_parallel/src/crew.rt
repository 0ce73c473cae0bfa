//! The threads that share the work of a run.

/// The threads of a run: at most so many work, and each item passes the gate.
#[derive(Drop)]
pub struct Crew<'a, R, G> {
    /// What starts threads.
    pub rt: &'a R,
    /// How many work at most.
    pub workers: u32,
    /// What each item passes.
    pub gate: &'a G,
}
