//! The load: a generated script is replayed, and what it came to is written.

ghost use Rattle.std.specs.Prelude.{◌≡◌, ◌≢◌, ◌≤◌, ◌∷◌, [], ℕ, List, Some, None, IfOk, IfErr, OnOk};
ghost use Rattle.std.specs.{Io.KnownBytes.{append_known}, String.{string_bytes}};
ghost use Rattle.serde_json.specs.View.{view};
ghost use Rattle.ptu_outside.specs.Handing.{HasPut, HasPutPart};
ghost use Rattle.ptu_report.specs.Runs.{CountsWrite};
ghost use Rattle.ptu_show.specs.Generated.{IsWriteOrMemory, generated};
ghost use Rattle.ptu_lab.specs.SummarySamples.{FiveClients, OneClient};
ghost use Rattle.ptu_lab.specs.Load.{numbers_of, object_text, summary, summary_data, summary_text};

use crate::done::Done;
use crate::replaying::replay;
use ptu_judges::Stock;
use ptu_outside::{Failed, MemSink, Sink, Source};
use ptu_report::RunFault;
use ptu_show::{LabFault, generate, put};
use serde_json::{Value, json};
use std::alloc::{AllocError, Global};

// A script in memory, of which this is left. It is read without a failure.
#[derive(Drop)]
struct ScriptSource<'a> {
    left: &'a [u8],
}

impl Source for ScriptSource<'_> {
    ghost left = { λ s. Some s.left.now };

    ghost ends = { λ _. None };

    ghost faults = { λ _. 0 };

    fn read(&mut self, buf: &mut [u8]) -> Result<usize, Failed> {
        let count = buf.len().min(self.left.len());
        let (front, rest) = self.left.split_at(count);
        buf[..count].copy_from_slice(front);
        self.left = rest;
        Ok(count)
    }
}

// A sink that takes everything and keeps nothing.
#[derive(Drop)]
struct Nowhere;

impl Sink for Nowhere {
    ghost written = { λ _. None };

    ghost handed = { λ _. None };

    ghost faults = { λ _. 0 };

    fn write(&mut self, piece: &[u8]) -> Result<usize, Failed> {
        Ok(piece.len())
    }
}

// The octets of the script of this many clients.
fn script_of(alloc: Global, number: u64) -> Result<Vec<u8>, LabFault>
    requires least { 1 ≤ number }
    requires most { number ≤ 2000 }
    ensures octets { IfOk result (λ octets. octets.items ≡ generated number) }
    ensures cause { IfErr result (λ fault. fault ≡ RunFault.OutOfMemory) }
{
    let mut sink = MemSink::new(alloc, Vec::new(alloc));
    // It fails only for want of memory.
    match generate(alloc, number, &mut sink) {
        Ok(()) => Ok(sink.into_bytes()),
        Err(_) => Err(RunFault::OutOfMemory),
    }
}

// What the script comes to, without judges.
fn replayed(alloc: Global, octets: &[u8]) -> Result<Done, LabFault>
    ensures numbers { IfOk result (λ done. done ≡ numbers_of octets.now) }
    // No line of the script of a load is refused.
    ensures cause { (n : ℕ) → 1 ≤ n → n ≤ 2000 → octets.now ≡ generated n
        → IfErr result (λ fault. fault ≡ RunFault.OutOfMemory) }
{
    let mut source = ScriptSource { left: octets };
    let stock = Stock {
        flags: Vec::new(alloc),
        gaps: Vec::new(alloc),
    };
    replay(alloc, &mut source, &mut Nowhere, stock)
}

// The object of these numbers.
fn summary_value(alloc: Global, done: Done) -> Result<Value, AllocError>
    ensures { IfOk result (λ value. view value ≡ summary_data done) }
{
    json!(in alloc; {
        "datagrams": done.datagrams,
        "granted": done.granted,
        "lines": done.lines,
        "refused": done.refused
    })
}

// Its compact text.
fn summary_object(alloc: Global, done: Done) -> Result<String, AllocError>
    ensures { IfOk result (λ text. string_bytes text ≡ object_text done) }
{
    let value = summary_value(alloc, done)?;
    value.to_string(alloc)
}

// The line of these numbers.
fn summary_line(alloc: Global, done: Done) -> Result<String, AllocError>
    ensures { IfOk result (λ text. string_bytes text ≡ summary_text done) }
{
    let mut text = summary_object(alloc, done)?;
    text.push('\n')?;
    Ok(text)
}

/// Replays the script that `generate` writes for this many clients, and writes one line: the
/// numbers of the report as a compact JSON object. It is handed to the sink in one piece, and its
/// rest again until all is taken.
///
/// # Errors
/// `Write` exactly where the sink failed, and `OutOfMemory`; never `Line` or `Read`.
pub fn load<K: Sink>(alloc: Global, number: u64, sink: &mut K) -> Result<(), LabFault>
    requires least { 1 ≤ number }
    requires most { number ≤ 2000 }
    ensures whole { OnOk result (HasPut K.written K.handed sink.old sink.new
        (summary number ∷ [])) }
    ensures written { OnOk result
        (K.written sink.new ≡ append_known (K.written sink.old) (summary number)) }
    ensures front { HasPutPart K.written K.handed sink.old sink.new (summary number ∷ []) }
    ensures cause { IfErr result IsWriteOrMemory }
    ensures nothing { IfErr result (λ fault. fault ≢ RunFault.Write → sink.new ≡ sink.old) }
    ensures counts { CountsWrite result (K.faults sink.old) (K.faults sink.new) }
{
    let octets = script_of(alloc, number)?;
    let done = replayed(alloc, &octets)?;
    match summary_line(alloc, done) {
        Ok(line) => put(line.as_bytes(), sink),
        Err(_) => Err(RunFault::OutOfMemory),
    }
}

/// What loads of few clients write.
pub fn sample_summaries()
    ensures one { OneClient }
    ensures five { FiveClients }
{}
