//! The octets of settings.

ghost use Rattle.std.specs.Prelude.{◌≡◌, ◌<◌, ◌≤◌, ◌+◌, ◌==◌, ℕ, List, Some, false, length, take, IfOk, IfErr, OnOk, OnErr, slice_range};
ghost use Rattle.std.specs.Io.KnownBytes.{IsAtEnd, prepend_known};
ghost use Rattle.ptu_outside.specs.{Ends.{CountsEnd, StopsAtEnd}, Faults.{HasRisen}};
ghost use Rattle.ptu_config.specs.Reading.{CountsRead, HasTaken, HasTakenSome, IsNoRefusal};

use crate::document::LONGEST_SETTINGS;
use crate::setup_fault::SetupFault;
use ptu_outside::{Failed, Source};
use std::alloc::Global;

/// How many octets are read at most: one more than settings may have.
const MOST: usize = LONGEST_SETTINGS + 1;

// Reads once, behind the octets before the place `at`.
fn read_behind<S: Source>(source: &mut S, octets: &mut [u8], at: usize) -> Result<usize, Failed>
    requires room { at < length octets.old }
    ensures fits { IfOk result (λ n. at + n ≤ length octets.new) }
    ensures length { length octets.new ≡ length octets.old }
    ensures front { take at octets.new ≡ take at octets.old }
    ensures read { IfOk result (λ n. S.left source.old
        ≡ prepend_known (slice_range octets.new at (at + n)) (S.left source.new)) }
    ensures end { IfOk result (λ n. n ≡ 0 → IsAtEnd (S.left source.new)) }
    ensures ends { IfOk result (λ n. CountsEnd (n == 0) (S.ends source.old) (S.ends source.new)) }
    ensures left { OnErr result (S.left source.new ≡ S.left source.old) }
    ensures no_end { OnErr result (CountsEnd false (S.ends source.old) (S.ends source.new)) }
    ensures risen { OnErr result (HasRisen (S.faults source.old) (S.faults source.new)) }
    ensures still { OnOk result (S.faults source.new ≡ S.faults source.old) }
{
    source.read(&mut octets[at..])
}

/// What the source has left, to its end, or to the 65537th octet; nothing behind the end is read.
///
/// # Errors
/// `Read` exactly where the source failed, or `OutOfMemory`.
pub(crate) fn read_octets<S: Source>(alloc: Global, source: &mut S) -> Result<Vec<u8>, SetupFault>
    ensures taken { IfOk result (λ octets. HasTaken (S.left source.old) (S.left source.new)
        octets.items) }
    ensures some { HasTakenSome (S.left source.old) (S.left source.new) }
    ensures cause { IfErr result IsNoRefusal }
    ensures ends { StopsAtEnd (S.ends source.old) (S.ends source.new) }
    ensures counts { CountsRead result (S.faults source.old) (S.faults source.new) }
{
    let mut octets: Vec<u8> = vec![in alloc; 0; MOST]?;
    let mut count = 0;
    while count < octets.len() {
        let taken = read_behind(source, &mut octets, count)?;
        if taken == 0 {
            octets.truncate(count);
            return Ok(octets);
        }
        count += taken;
    }
    Ok(octets)
}
