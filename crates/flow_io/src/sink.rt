//! Where bytes go, and why not all of them were put.

ghost use Rattle.std.specs.Prelude.{◌≡◌, ◌<◌, ◌≤◌, List, ℕ, Bool, false, Option, length, take, IfOk, IfErr, OnOk, OnErr, IsTrue};
ghost use Rattle.std.specs.Io.KnownBytes.{Appends, Keeps, WriteAppends};
ghost use Rattle.flow_io.specs.Causes.{Rose};
ghost use Rattle.flow_io.specs.Sink.{written_of};

use thiserror::Error;

/// Why a put or a finish failed.
#[derive(Clone, Copy, Debug, PartialEq, Eq, Error)]
pub enum SinkFault {
    /// The sink's count of faults rose in the call.
    #[error("the sink failed")]
    Failed,
}

/// Why not all bytes were put.
#[derive(Clone, Copy, Debug, PartialEq, Eq, Error)]
pub enum PutFault {
    /// A put failed, and the sink's count of faults rose.
    #[error("the sink failed behind {written} bytes")]
    Failed {
        /// How many of the bytes were written, the first of them.
        written: usize,
    },
}

/// Where bytes go.
pub trait Sink {
    /// The bytes that were put so far, where the sink tells them.
    ghost written: { Self → Option (List ℕ) };

    /// Whether the sink is finished. After a put it isn't.
    ghost is_finished: { Self → Bool };

    /// How many puts and finishes failed. The count never falls, and stays at the greatest u64.
    ghost faults: { Self → ℕ };

    /// Appends the first bytes of a piece, at least one, and returns how many. Where it fails it appends
    /// nothing, and the count of faults rises.
    fn put(&mut self, bytes: &[u8]) -> Result<usize, SinkFault>
        requires { 0 < length bytes.now }
        ensures some { IfOk result (λ count. 0 < count) }
        ensures bound { IfOk result (λ count. count ≤ length bytes.now) }
        ensures appended { WriteAppends (written self.old) (written self.new) result bytes.now }
        ensures unfinished { OnOk result (is_finished self.new ≡ false) }
        ensures cause { OnErr result (Rose (faults self.old) (faults self.new)) }
        ensures count { faults self.old ≤ faults self.new };

    /// Ends the output, and appends nothing. It fails only where the count of faults rises.
    fn finish(&mut self) -> Result<(), SinkFault>
        ensures appended { Keeps (written self.old) (written self.new) }
        ensures finished { OnOk result (IsTrue (is_finished self.new)) }
        ensures cause { OnErr result (Rose (faults self.old) (faults self.new)) }
        ensures count { faults self.old ≤ faults self.new };
}

/// Puts all bytes, in as many pieces as the sink takes. Where a put fails, the first of them are written, as
/// many as the fault says, and the count of faults rose.
pub fn put_all<K: Sink>(sink: &mut K, bytes: &[u8]) -> Result<(), PutFault>
    ensures all { OnOk result (Appends (K.written sink.old) (K.written sink.new) bytes.now) }
    ensures first { IfErr result (λ fault. Appends (K.written sink.old) (K.written sink.new) (take (written_of fault) bytes.now)) }
    ensures short { IfErr result (λ fault. written_of fault < length bytes.now) }
    ensures unfinished { OnOk result (0 < length bytes.now → K.is_finished sink.new ≡ false) }
    ensures cause { OnErr result (Rose (K.faults sink.old) (K.faults sink.new)) }
    ensures count { K.faults sink.old ≤ K.faults sink.new }
{
    let mut rest = bytes;
    while !rest.is_empty() {
        match sink.put(rest) {
            Ok(count) => rest = &rest[count..],
            Err(SinkFault::Failed) => {
                return Err(PutFault::Failed {
                    written: bytes.len() - rest.len(),
                });
            }
        }
    }
    Ok(())
}
