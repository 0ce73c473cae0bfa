//! The outside of the program: where files come from and where bytes go, each with its count of faults.
#![tactic(auto)]

mod memory_shelf;
mod memory_sink;
mod real_shelf;
mod real_sink;
mod shelf;
mod sink;
mod steady_shelf;
mod steady_sink;

pub use memory_shelf::MemoryShelf;
pub use memory_sink::MemorySink;
pub use real_shelf::RealShelf;
pub use real_sink::RealSink;
pub use shelf::{Shelf, ShelfFault};
pub use sink::{PutFault, Sink, SinkFault, put_all};
pub use steady_shelf::SteadyShelf;
pub use steady_sink::SteadySink;
