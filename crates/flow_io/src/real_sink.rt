//! The standard output of the machine.

ghost use Rattle.std.specs.Prelude.{◌≡◌, ◌<◌, ◌≤◌, None, false, length, IfOk, OnOk, OnErr, IsTrue};
ghost use Rattle.flow_io.specs.Causes.{Rose, CountsFault};

use crate::{Sink, SinkFault};

/// The machine's standard output, of which it tells no bytes.
#[derive(Drop)]
pub struct RealSink<R: Print + Drop> {
    rt: R,
    faults: u64,
    is_finished: bool,
}

impl<R: Print + Drop> RealSink<R> {
    /// The standard output, not finished and with no fault so far.
    pub fn new(rt: R) -> RealSink<R>
        ensures no_fault { ⟦<RealSink<R> as Sink>⟧.faults result ≡ 0 }
        ensures unfinished { ⟦<RealSink<R> as Sink>⟧.is_finished result ≡ false }
    {
        RealSink {
            rt,
            faults: 0,
            is_finished: false,
        }
    }
}

impl<R: Print + Drop> Sink for RealSink<R> {
    ghost written = { λ _. None };

    ghost is_finished = { λ sink. sink.is_finished };

    ghost faults = { λ sink. sink.faults };

    /// A write that takes nothing of the piece is a fault. The count goes up by one where the put failed, and is unchanged otherwise.
    fn put(&mut self, bytes: &[u8]) -> Result<usize, SinkFault>
        requires { 0 < length bytes.now }
        ensures counted { CountsFault self.old.faults self.new.faults result }
        // by the trait
        ensures some { IfOk result (λ count. 0 < count) }
        ensures bound { IfOk result (λ count. count ≤ length bytes.now) }
        ensures unfinished { OnOk result (self.new.is_finished ≡ false) }
        ensures cause { OnErr result (Rose self.old.faults self.new.faults) }
        ensures count { self.old.faults ≤ self.new.faults }
    {
        match self.rt.write_some(bytes) {
            Ok(count) if count > 0 => {
                self.is_finished = false;
                Ok(count)
            }
            _ => {
                self.faults = self.faults.saturating_add(1);
                Err(SinkFault::Failed)
            }
        }
    }

    /// Each put has written its bytes, so that nothing is left to write.
    fn finish(&mut self) -> Result<(), SinkFault>
        ensures counted { CountsFault self.old.faults self.new.faults result }
        // by the trait
        ensures finished { OnOk result (IsTrue self.new.is_finished) }
        ensures cause { OnErr result (Rose self.old.faults self.new.faults) }
        ensures count { self.old.faults ≤ self.new.faults }
    {
        self.is_finished = true;
        Ok(())
    }
}
