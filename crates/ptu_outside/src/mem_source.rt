//! A source in memory, for tests: it gives octets, and chosen calls fail.

ghost use Rattle.std.specs.Prelude.{◌≡◌, ◌<◌, ◌≤◌, ◌↔◌, ◌==◌, ◌&&◌, false, Some, None, length, take, min, nat_lt, IfOk, OnOk, OnErr, IsErr, is_err, if◌then◌else◌, Contains};
ghost use Rattle.std.specs.Io.KnownBytes.{IsAtEnd, prepend_known};
ghost use Rattle.ptu_outside.specs.{Ends.{CountsEnd}, Faults.{HasRisen, one_more}};

use crate::failed::Failed;
use crate::source::Source;
use std::marker::Model;

/// Octets in memory to be read, which fails at the listed calls. What is left is always observable,
/// and not how it was read at its end.
#[derive(Drop)]
pub struct MemSource {
    bytes: Vec<u8>,
    at: usize,
    fails: Vec<u64>,
    calls: u64,
    faults: u64,
}

impl Model for MemSource {
    ghost use Rattle.std.specs.Prelude.{◌≤◌, drop, length};
    ghost use Rattle.ptu_outside.specs.Memory.{MemoryInput};

    ghost Value = { MemoryInput };

    ghost view = { λ s. record {
      left = drop s.at s.bytes.items;
      fails = s.fails.items;
      calls = s.calls;
      faults = s.faults;
    } };

    ghost invariant = { λ s. s.at ≤ length s.bytes.items };
}

impl MemSource {
    /// A source of these octets, whose calls with these numbers, from 1, are to fail.
    pub fn new(bytes: Vec<u8>, fails: Vec<u64>) -> MemSource
        ensures { result
            ≡ record { left = bytes.items; fails = fails.items; calls = 0; faults = 0 } }
    {
        MemSource {
            bytes,
            at: 0,
            fails,
            calls: 0,
            faults: 0,
        }
    }
}

// Copies as much of the front as fits, and gives how much that is.
fn copy_front(from: &[u8], to: &mut [u8]) -> usize
    ensures count { result ≡ min (length to.new) (length from.now) }
    ensures copied { take result to.new ≡ take result from.now }
{
    let count = to.len().min(from.len());
    to[..count].copy_from_slice(&from[..count]);
    count
}

impl Source for MemSource {
    ghost left = { λ s. Some s.left };

    ghost ends = { λ _. None };

    ghost faults = { λ s. s.faults };

    fn read(&mut self, buf: &mut [u8]) -> Result<usize, Failed>
        ensures within { IfOk result (λ n. n ≤ length buf.new) }
        ensures taken { IfOk result (λ n.
            Some self.old.left ≡ prepend_known (take n buf.new) (Some self.new.left)) }
        ensures end { IfOk result (λ n. n ≡ 0 → 0 < length buf.new → IsAtEnd (Some self.new.left)) }
        ensures ends { IfOk result
            (λ n. CountsEnd (n == 0 && nat_lt 0 (length buf.new)) None None) }
        ensures kept { OnErr result (Some self.new.left ≡ Some self.old.left) }
        ensures no_end { OnErr result (CountsEnd false None None) }
        ensures risen { OnErr result (HasRisen self.old.faults self.new.faults) }
        ensures still { OnOk result (self.new.faults ≡ self.old.faults) }
        ensures no_fall { self.old.faults ≤ self.new.faults }
        // It fails exactly at the listed calls, and else gives as much as fits.
        ensures listed { IsErr result ↔ Contains self.old.fails self.new.calls }
        ensures fills { IfOk result (λ n. n ≡ min (length buf.new) (length self.old.left)) }
        ensures faults { self.new.faults
            ≡ (if is_err result then one_more self.old.faults else self.old.faults) }
        ensures calls { self.new.calls ≡ one_more self.old.calls }
        ensures fails { self.new.fails ≡ self.old.fails }
    {
        self.calls = self.calls.saturating_add(1);
        if self.fails.contains(&self.calls) {
            self.faults = self.faults.saturating_add(1);
            return Err(Failed);
        }
        let taken = copy_front(&self.bytes[self.at..], buf);
        self.at += taken;
        Ok(taken)
    }
}
