//! A sink in memory, for tests: it keeps what was written, and chosen calls fail.

ghost use Rattle.std.specs.Prelude.{◌≡◌, ◌<◌, ◌≤◌, ◌+◌, [], ◌∷◌, Some, None, length, take, IfOk, OnOk, OnErr, IsErr, IsOk, is_err, if◌then◌else◌, Contains};
ghost use Rattle.std.specs.Io.KnownBytes.{append_known};
ghost use Rattle.ptu_outside.specs.{Faults.{HasRisen, one_more}, Handing.{Grows}};

use crate::failed::Failed;
use crate::sink::Sink;
use ptu_units::OutOfMemory;
use std::alloc::Global;
use std::marker::Model;

/// Octets in memory that were written, which fails at the listed calls. What was written is always
/// observable, and not in which pieces.
#[derive(Drop)]
pub struct MemSink {
    bytes: Vec<u8>,
    fails: Vec<u64>,
    calls: u64,
    faults: u64,
}

impl Model for MemSink {
    ghost use Rattle.std.specs.Prelude.{vec_capacity};
    ghost use Rattle.ptu_outside.specs.Memory.{MemoryOutput};

    ghost Value = { MemoryOutput };

    ghost view = { λ k. record {
      bytes = k.bytes.items;
      room = vec_capacity k.bytes;
      fails = k.fails.items;
      calls = k.calls;
      faults = k.faults;
    } };
}

impl MemSink {
    /// A sink to which nothing was written, whose calls with these numbers, from 1, are to fail.
    pub fn new(alloc: Global, fails: Vec<u64>) -> MemSink
        ensures bytes { result.bytes ≡ [] }
        ensures fails { result.fails ≡ fails.items }
        ensures calls { result.calls ≡ 0 }
        ensures faults { result.faults ≡ 0 }
    {
        MemSink {
            bytes: Vec::new(alloc),
            fails,
            calls: 0,
            faults: 0,
        }
    }

    /// Makes room for this many octets more. Writes within it fail only where they are listed.
    ///
    /// # Errors
    /// `OutOfMemory`, only where that room was missing.
    pub fn reserve(&mut self, octets: usize) -> Result<(), OutOfMemory>
        ensures room { OnOk result (length self.old.bytes + octets ≤ self.new.room) }
        ensures full { OnErr result (self.old.room < length self.old.bytes + octets) }
        ensures no_loss { self.old.room ≤ self.new.room }
        ensures same { self.new ≡ record self.old { room = self.new.room } }
    {
        self.bytes.reserve(octets)?;
        Ok(())
    }

    /// The octets that were written.
    pub fn bytes(&self) -> &[u8]
        ensures { result.now ≡ self.now.bytes }
    {
        &self.bytes
    }

    /// The octets that were written, taken out.
    pub fn into_bytes(self) -> Vec<u8>
        ensures { result.items ≡ self.bytes }
    {
        let MemSink { bytes, .. } = self;
        bytes
    }
}

impl Sink for MemSink {
    ghost written = { λ k. Some k.bytes };

    ghost handed = { λ _. None };

    ghost faults = { λ k. k.faults };

    fn write(&mut self, piece: &[u8]) -> Result<usize, Failed>
        ensures within { IfOk result (λ n. n ≤ length piece.now) }
        ensures some { IfOk result (λ n. 0 < length piece.now → 0 < n) }
        ensures taken { IfOk result (λ n.
            Some self.new.bytes ≡ append_known (Some self.old.bytes) (take n piece.now)) }
        ensures kept { OnErr result (Some self.new.bytes ≡ Some self.old.bytes) }
        ensures handed { Grows None None (piece.now ∷ []) }
        ensures risen { OnErr result (HasRisen self.old.faults self.new.faults) }
        ensures still { OnOk result (self.new.faults ≡ self.old.faults) }
        ensures no_fall { self.old.faults ≤ self.new.faults }
        // It fails at the listed calls, and at others only past its room. Else it takes the piece
        // whole.
        ensures listed { Contains self.old.fails self.new.calls → IsErr result }
        ensures fits { ¬ Contains self.old.fails self.new.calls
            → length self.old.bytes + length piece.now ≤ self.old.room → IsOk result }
        ensures whole { IfOk result (λ n. n ≡ length piece.now) }
        ensures faults { self.new.faults
            ≡ (if is_err result then one_more self.old.faults else self.old.faults) }
        ensures calls { self.new.calls ≡ one_more self.old.calls }
        ensures fails { self.new.fails ≡ self.old.fails }
        ensures room { self.old.room ≤ self.new.room }
    {
        self.calls = self.calls.saturating_add(1);
        if self.fails.contains(&self.calls) || self.bytes.extend_from_slice(piece).is_err() {
            self.faults = self.faults.saturating_add(1);
            return Err(Failed);
        }
        Ok(piece.len())
    }
}
