//! A sink in memory.
ghost use Rattle.std.specs.Prelude.{◌≡◌, ◌≤◌, IfOk, is_ok, IsOk, length, vec_len, vec_capacity};
ghost use Rattle.std.proofs.Common.{rules};
ghost use Rattle.scram_io.specs.Outside.{Prints};
ghost use Rattle.scram_io.specs.Memory.{SinkHeld, after_put, empty_sink, put_takes, sink_state};

use super::listed::is_listed_call;
use super::sink::{Sink, SinkFault};
use scram_types::NoMemory;
use std::alloc::Global;
use std::marker::Model;

/// A sink that keeps the bytes in memory. Its buffer is allocated when the sink is created. The bytes that the sink
/// takes count as sent.
///
/// Contracts see the bytes, the capacity, the numbers of the puts that are to fail, the number of puts and the number
/// of faults. Each call of `put` is a put, numbered from 0. Neither number rises past `u64::MAX`, which is above
/// every number that can be listed.
pub struct MemSink {
    bytes: Vec<u8>,
    room: usize,
    failing: Vec<u32>,
    puts: u64,
    faults: u64,
}

// A derived drop is laid out in the proof of each function that drops the value, and this one is a call.
impl Drop for MemSink {
    fn drop(self) {
        let MemSink {
            bytes: _,
            room: _,
            failing: _,
            puts: _,
            faults: _,
        } = self;
    }
}

impl Model for MemSink {
    ghost Value = { SinkHeld };

    ghost view = { λ s. record { bytes = s.bytes.items; room = s.room; failing = s.failing.items; puts = s.puts; faults = s.faults } };

    ghost invariant = { λ s. (s.room ≤ vec_capacity s.bytes) × (vec_len s.bytes ≤ s.room) };
}

impl MemSink {
    /// Creates a sink with a capacity of `room` bytes. The puts whose numbers are in `failing` fail. Returns an error
    /// if memory runs out.
    pub fn new(alloc: Global, room: usize, failing: Vec<u32>) -> Result<MemSink, NoMemory>
        ensures { IfOk result (λ sink. sink ≡ empty_sink room failing.items) }
    {
        let bytes = Vec::with_capacity(alloc, room)?;
        Ok(MemSink {
            bytes,
            room,
            failing,
            puts: 0,
            faults: 0,
        })
    }

    /// Returns the bytes that the sink took, which are at most its capacity.
    pub fn bytes(&self) -> &[u8]
        ensures shown { result.now ≡ self.now.bytes }
        ensures within { length result.now ≤ self.now.room }
    {
        &self.bytes
    }
}

impl Sink for MemSink {
    ghost state = { sink_state };

    /// Takes all of `bytes`. Fails exactly if the put's number is listed or the bytes do not fit the capacity. Then
    /// the sink takes no bytes, and the count of faults rises.
    fn put(&mut self, bytes: &[u8]) -> Result<(), SinkFault>
        ensures prints { Prints result (sink_state self.old) (sink_state self.new) bytes.now }
        ensures after { self.new ≡ after_put self.old bytes.now }
        ensures answer { is_ok result ≡ put_takes self.old bytes.now }
    {
        let listed = is_listed_call(&self.failing, self.puts);
        self.puts = self.puts.saturating_add(1);
        let passes = bytes.len() > self.room - self.bytes.len();
        if listed || passes {
            self.faults = self.faults.saturating_add(1);
            return Err(SinkFault);
        }
        match self.bytes.extend_from_slice(bytes) {
            Ok(()) => Ok(()),
            Err(_) => unreachable!(),
        }
    }

    /// Does nothing, since the bytes taken count as sent.
    fn flush(&mut self) -> Result<(), SinkFault>
        ensures same { self.new ≡ self.old }
        ensures ok { IsOk result }
    {
        Ok(())
    }

    ghost surely_below = { λ held. Prim.search rules };
}
