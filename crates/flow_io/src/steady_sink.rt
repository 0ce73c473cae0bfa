//! Output of which only the number of bytes is stored, and of which no put or finish fails.

ghost use Rattle.std.specs.Prelude.{◌≡◌, ◌+◌, ◌<◌, None, Ok, true, false, min, length};
ghost use Rattle.flow_io.specs.Steady.{nothing_taken};

use crate::{Sink, SinkFault};
use std::marker::Model;

/// A sink for tests that counts the bytes, and tells none of them. Its count of faults is 0.
#[derive(Drop)]
pub struct SteadySink {
    taken: u64,
    finished: bool,
}

impl Model for SteadySink {
    ghost use Rattle.flow_io.specs.Steady.{SinkCount};

    ghost Value = { SinkCount };

    ghost view = { λ sink. record { taken = sink.taken; finished = sink.finished } };
}

impl SteadySink {
    /// A sink that took nothing.
    pub fn new() -> SteadySink
        ensures { result ≡ nothing_taken }
    {
        SteadySink {
            taken: 0,
            finished: false,
        }
    }

    /// How many bytes it took; at the greatest u64 the number stays.
    pub fn taken(&self) -> u64
        ensures { result ≡ self.now.taken }
    {
        self.taken
    }

    /// Whether the last call was a finish.
    pub fn finished(&self) -> bool
        ensures { result ≡ self.now.finished }
    {
        self.finished
    }
}

impl Sink for SteadySink {
    ghost written = { λ _. None };

    ghost is_finished = { λ sink. sink.finished };

    ghost faults = { λ _. 0 };

    /// Takes the whole piece.
    fn put(&mut self, bytes: &[u8]) -> Result<usize, SinkFault>
        requires { 0 < length bytes.now }
        ensures whole { result ≡ Ok (length bytes.now) }
        ensures counted { self.new ≡ record { taken = min (self.old.taken + length bytes.now) u64.MAX; finished = false } }
    {
        self.taken = self.taken.saturating_add(bytes.len() as u64);
        self.finished = false;
        Ok(bytes.len())
    }

    /// Ends the output. The count stays.
    fn finish(&mut self) -> Result<(), SinkFault>
        ensures never_fails { result ≡ Ok tt }
        ensures kept { self.new ≡ record { taken = self.old.taken; finished = true } }
    {
        self.finished = true;
        Ok(())
    }
}
