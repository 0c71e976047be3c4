//! A sink in memory, with room for so many bytes.

ghost use Rattle.std.specs.Prelude.{◌≡◌, ◌≤◌, ◌<◌, ◌+◌, ◌-◌, [], Some, IfOk, OnOk, OnErr, length, take, min};
ghost use Rattle.base.specs.Count.{Rose};
ghost use Rattle.cfg_io.specs.Sink.{taken_after};

use crate::NoMemory;
use crate::sink::{Sink, SinkFailed};
use std::alloc::Global;
use std::marker::Model;

/// A sink that keeps what it takes, and fails once its room is full. Contracts see the bytes that it
/// took, the room that is left, and its count of faults.
#[derive(Drop)]
pub struct MemSink {
    bytes: Vec<u8>,
    room: usize,
    faults: u64,
}

impl Model for MemSink {
    ghost use Rattle.std.specs.Prelude.{◌≤◌, ◌+◌, vec_len, vec_capacity};
    ghost use Rattle.cfg_io.specs.Store.{SinkInMemory};

    ghost Value = { SinkInMemory };

    ghost view = { λ s. record { bytes = s.bytes.items; room = s.room; faults = s.faults } };

    ghost invariant = { λ s. vec_len s.bytes + s.room ≤ vec_capacity s.bytes };
}

impl MemSink {
    /// An empty sink that takes `room` bytes in all. It takes their memory now.
    pub fn new(alloc: Global, room: usize) -> Result<MemSink, NoMemory>
        ensures { IfOk result (λ sink. sink ≡ record { bytes = []; room = room; faults = 0 }) }
    {
        let bytes = Vec::with_capacity(alloc, room)?;
        Ok(MemSink {
            bytes,
            room,
            faults: 0,
        })
    }

    /// The bytes that it took, in order.
    pub fn bytes(&self) -> &[u8]
        ensures { result.now ≡ self.now.bytes }
    {
        self.bytes.as_slice()
    }
}

impl Sink for MemSink {
    ghost faults = { λ s. s.faults };

    ghost taken = { λ s. Some s.bytes };

    fn put(&mut self, piece: &[u8]) -> Result<usize, SinkFailed>
        ensures within { IfOk result (λ count. count ≤ length piece.now) }
        ensures moves { IfOk result (λ count. 0 < length piece.now → 0 < count) }
        ensures takes { Some self.new.bytes ≡ taken_after result piece.now (Some self.old.bytes) }
        ensures steady { OnOk result (self.new.faults ≡ self.old.faults) }
        ensures rose { OnErr result (Rose self.old.faults self.new.faults) }

        // A piece is taken as far as the room goes, and refused only where there is none.
        ensures fills { IfOk result (λ count. count ≡ min (length piece.now) self.old.room) }
        ensures uses { IfOk result (λ count. self.new.room ≡ self.old.room - count) }
        ensures counted { OnErr result (self.new.faults ≡ min (self.old.faults + 1) u64.MAX) }
        ensures full { OnErr result ((self.old.room ≡ 0) × (0 < length piece.now)) }
        ensures stays_full { OnErr result (self.new.room ≡ self.old.room) }
    {
        let count = piece.len().min(self.room);
        if count == 0 && !piece.is_empty() {
            self.faults = self.faults.saturating_add(1);
            return Err(SinkFailed);
        }
        self.bytes.extend_from_slice(&piece[..count]).unwrap();
        self.room -= count;
        Ok(count)
    }
}
