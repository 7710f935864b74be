//! A sink in memory.
ghost use Rattle.std.specs.Prelude.{◌≡◌, ◌≤◌, ◌/◌, [], length, vec_capacity, Some, is_ok, IfOk, OnOk, OnErr, if◌then◌else◌};
ghost use Rattle.answers.specs.Counts.{count64};
ghost use Rattle.spares_io.specs.Causes.{Rose};
ghost use Rattle.spares_io.specs.Memory.{after_put, can_put};
ghost use Rattle.spares_io.specs.Sink.{Gains, GainsPart};

use crate::schedule::Schedule;
use crate::{NoMemory, Sink, SinkFailed};
use std::alloc::Global;
use std::marker::Model;

/// Bytes in memory, up to a capacity that is set at construction. Listed puts fail.
#[derive(Drop)]
pub struct MemSink {
    bytes: Vec<u8>,
    room: usize,
    schedule: Schedule,
    faults: u64,
}

impl Model for MemSink {
    ghost use Rattle.std.specs.Prelude.{◌≤◌, length, vec_capacity};
    ghost use Rattle.spares_io.specs.Memory.{SinkMemory};

    ghost Value = { SinkMemory };

    ghost view = { λ a. record {
      bytes = a.bytes.items;
      room = a.room;
      fails = a.schedule.fails.items;
      calls = a.schedule.calls;
      faults = a.faults;
    } };

    ghost invariant = { λ a. (length a.bytes.items ≤ a.room) × (a.room ≤ vec_capacity a.bytes) };
}

impl MemSink {
    /// A sink with capacity for `room` bytes. Its puts are numbered from 1, and those in `fails` fail. Want of memory
    /// is the only error.
    pub fn new(alloc: Global, room: usize, fails: Vec<u32>) -> Result<MemSink, NoMemory>
        ensures { IfOk result (λ sink. sink ≡ record {
          bytes = [];
          room = room;
          fails = fails.items;
          calls = 0;
          faults = 0;
        }) }
    {
        let bytes = Vec::with_capacity(alloc, room)?;
        Ok(MemSink {
            bytes,
            room,
            schedule: Schedule::new(fails),
            faults: 0,
        })
    }

    /// All bytes that were put.
    pub fn bytes(&self) -> &[u8]
        ensures { result.now ≡ self.now.bytes }
    {
        self.bytes.as_slice()
    }
}

/// The number of bytes of a piece that a put keeps if they fit: all, or the first half if the put is to fail.
fn kept_len(is_listed: bool, len: usize) -> usize
    ensures { result ≡ (if is_listed then len / 2 else len) }
{
    if is_listed { len / 2 } else { len }
}

impl Sink for MemSink {
    ghost use Rattle.std.specs.Prelude.{Some};
    ghost use Rattle.std.proofs.Common.{arith};

    ghost bytes = { λ s. Some s.bytes };

    ghost faults = { λ s. count64 s.faults };

    ghost end = { λ s. Prim.omega arith };

    /// Puts these bytes. A put that doesn't fit keeps the bytes that do, and a listed put at most the first half of its
    /// bytes, rounded down.
    ///
    /// # Errors
    ///
    /// `SinkFailed` exactly if the put is listed or doesn't fit. The count rises only then.
    fn put(&mut self, piece: &[u8]) -> Result<(), SinkFailed>
        ensures whole { OnOk result (Gains (Some self.old.bytes) (Some self.new.bytes) piece.now) }
        ensures part { OnErr result (GainsPart (Some self.old.bytes) (Some self.new.bytes) piece.now) }
        ensures failed { OnErr result (Rose (count64 self.old.faults) (count64 self.new.faults)) }
        ensures still { OnOk result (count64 self.new.faults ≡ count64 self.old.faults) }
        ensures answer { is_ok result ≡ can_put self.old piece.now }
        ensures state { self.new ≡ after_put self.old piece.now }
    {
        let is_listed = self.schedule.begin_call();
        let kept = kept_len(is_listed, piece.len()).min(self.room - self.bytes.len());
        self.bytes.extend_from_slice(&piece[..kept]).unwrap();
        if is_listed || kept < piece.len() {
            self.faults = self.faults.saturating_add(1);
            return Err(SinkFailed);
        }
        Ok(())
    }
}
