//! Output that is stored in memory, with puts and finishes that are made to fail.

ghost use Rattle.std.specs.Prelude.{◌≡◌, ◌<◌, ◌≤◌, Some, IfOk, OnErr, length};
ghost use Rattle.flow_io.specs.Causes.{Rose};
ghost use Rattle.flow_io.specs.MemorySink.{new_sink, PutGives, FinishGives};

use crate::{Sink, SinkFault};
use lists::Listing;
use std::alloc::{AllocError, Global};
use std::marker::Model;

/// A sink in memory, with limited room, for tests. Its puts and finishes are numbered together from 1, and
/// those with a number in the list `failing` fail.
#[derive(Drop)]
pub struct MemorySink {
    bytes: Vec<u8>,
    most_per_put: usize,
    room: usize,
    failing: Listing<u64>,
    calls: u64,
    faults: u64,
    finished: bool,
}

impl Model for MemorySink {
    ghost use Rattle.std.specs.Prelude.{◌<◌, ◌≤◌, vec_len, vec_capacity};
    ghost use Rattle.flow_io.specs.MemorySink.{SinkState};

    ghost Value = { SinkState };

    ghost view = { λ sink. record {
      bytes = sink.bytes.items;
      most_per_put = sink.most_per_put;
      room = sink.room;
      failing = sink.failing;
      calls = sink.calls;
      faults = sink.faults;
      finished = sink.finished;
    } };

    ghost invariant = { λ sink. (0 < sink.most_per_put) × (vec_len sink.bytes ≤ sink.room) × (sink.room ≤ vec_capacity sink.bytes) };
}

impl MemorySink {
    /// An empty sink that takes at most `most_per_put` bytes a put and at most `room` bytes in all.
    pub fn new(
        alloc: Global,
        most_per_put: usize,
        room: usize,
        failing: Listing<u64>,
    ) -> Result<MemorySink, AllocError>
        requires { 0 < most_per_put }
        ensures { IfOk result (λ sink. sink ≡ new_sink most_per_put room failing) }
    {
        Ok(MemorySink {
            bytes: Vec::with_capacity(alloc, room)?,
            most_per_put,
            room,
            failing,
            calls: 0,
            faults: 0,
            finished: false,
        })
    }

    /// The bytes that were put so far.
    pub fn bytes(&self) -> &[u8]
        ensures { result.now ≡ self.now.bytes }
    {
        &self.bytes
    }

    /// How many puts and finishes there were; at the greatest u64 the number stays.
    pub fn calls(&self) -> u64
        ensures { result ≡ self.now.calls }
    {
        self.calls
    }

    /// Whether the last call that didn't fail was a finish.
    pub fn finished(&self) -> bool
        ensures { result ≡ self.now.finished }
    {
        self.finished
    }
}

impl Sink for MemorySink {
    ghost written = { λ sink. Some sink.bytes };

    ghost is_finished = { λ sink. sink.finished };

    ghost faults = { λ sink. sink.faults };

    /// Appends as many bytes as it takes at once. It fails exactly where the call's number is listed or those
    /// bytes exceed the room.
    fn put(&mut self, bytes: &[u8]) -> Result<usize, SinkFault>
        requires { 0 < length bytes.now }
        ensures exact { PutGives self.old bytes.now result self.new }
        // by the trait
        ensures some { IfOk result (λ count. 0 < count) }
        ensures cause { OnErr result (Rose self.old.faults self.new.faults) }
        ensures count { self.old.faults ≤ self.new.faults }
    {
        self.calls = self.calls.saturating_add(1);
        let count = bytes.len().min(self.most_per_put);
        if self.failing.as_slice().contains(&self.calls) || self.room - self.bytes.len() < count {
            self.faults = self.faults.saturating_add(1);
            return Err(SinkFault::Failed);
        }
        self.bytes.extend_from_slice(&bytes[..count]).unwrap();
        self.finished = false;
        Ok(count)
    }

    /// It fails exactly where the call's number is listed.
    fn finish(&mut self) -> Result<(), SinkFault>
        ensures exact { FinishGives self.old result self.new }
        // by the trait
        ensures cause { OnErr result (Rose self.old.faults self.new.faults) }
        ensures count { self.old.faults ≤ self.new.faults }
    {
        self.calls = self.calls.saturating_add(1);
        if self.failing.as_slice().contains(&self.calls) {
            self.faults = self.faults.saturating_add(1);
            return Err(SinkFault::Failed);
        }
        self.finished = true;
        Ok(())
    }
}
