//! A port in memory: what waits is a list, what was sent is kept, and chosen calls fail. Scripts
//! run over it, and so do most tests.

ghost use Rattle.std.specs.Prelude.{◌≡◌, ◌<◌, ◌≤◌, ◌+◌, ◌⊎◌, ◌↔◌, List, [], ◌∷◌, ◌++◌, Some, length, take, drop, slice_get, vec_len, vec_capacity, IfOk, OnOk, OnErr, IfSome, IfNone, IsErr, IsOk, is_err, MatchOption, if◌then◌else◌, Contains};
ghost use Rattle.ptu_outside.specs.Departure.{Departure};
ghost use Rattle.ptu_outside.specs.Faults.{HasRisen, HasNotFallen, one_more};
ghost use Rattle.ptu_outside.specs.MemoryPort.{IsLaidOut, IsSure, FitAll, departures, departure_octets};
ghost use Rattle.ptu_outside.specs.Telling.{IfTold, IsFirstTold, IsEmptyTold, append_told, rest_told};

use crate::arrival::Arrival;
use crate::channel::Channel;
use crate::failed::Failed;
use crate::port::Port;
use ptu_units::OutOfMemory;
use ptu_units::sizes::LONGEST_DATAGRAM;
use std::alloc::Global;
use std::marker::Model;

// A datagram that was sent, with the range of its octets among those of all.
#[derive(Clone, Copy)]
struct Slot {
    ip: u32,
    channel: Channel,
    start: usize,
    end: usize,
}

/// A port in memory, which fails at the listed sends and receives. What was sent and what waits is
/// always observable.
pub struct MemPort {
    slots: Vec<Slot>,
    octets: Vec<u8>,
    waiting: Vec<Arrival>,
    next: usize,
    failing_sends: Vec<u64>,
    failing_receives: Vec<u64>,
    sends: u64,
    receives: u64,
    faults: u64,
}

impl Model for MemPort {
    ghost use Rattle.std.specs.Prelude.{◌≤◌, drop, length, vec_capacity};
    ghost use Rattle.ptu_outside.specs.MemoryPort.{MemoryPort, IsLaidOut, FitAll, departures};

    ghost Value = { MemoryPort };

    ghost view = { λ p. record {
      sent = departures p.octets.items p.slots.items;
      datagrams = vec_capacity p.slots;
      octets = vec_capacity p.octets;
      waiting = drop p.next p.waiting.items;
      failing_sends = p.failing_sends.items;
      failing_receives = p.failing_receives.items;
      sends = p.sends;
      receives = p.receives;
      faults = p.faults;
    } };

    ghost invariant = { λ p. IsLaidOut p.octets.items p.slots.items
        × (p.next ≤ length p.waiting.items)
        × FitAll (drop p.next p.waiting.items) };
}

impl MemPort {
    /// A port at which these datagrams wait, each of at most 2048 octets, and by which nothing was
    /// sent. Its sends and its receives with these numbers, each counted from 1, are to fail.
    pub fn new(
        alloc: Global,
        waiting: Vec<Arrival>,
        failing_sends: Vec<u64>,
        failing_receives: Vec<u64>,
    ) -> MemPort
        requires { FitAll waiting.items }
        ensures sent { result.sent ≡ [] }
        ensures waiting { result.waiting ≡ waiting.items }
        ensures failing_sends { result.failing_sends ≡ failing_sends.items }
        ensures failing_receives { result.failing_receives ≡ failing_receives.items }
        ensures calls { (result.sends ≡ 0) × (result.receives ≡ 0) }
        ensures faults { result.faults ≡ 0 }
    {
        MemPort {
            slots: Vec::new(alloc),
            octets: Vec::new(alloc),
            waiting,
            next: 0,
            failing_sends,
            failing_receives,
            sends: 0,
            receives: 0,
            faults: 0,
        }
    }

    /// Makes room for this many datagrams more, and for this many octets in them. Sends within it
    /// fail only where they are listed.
    ///
    /// # Errors
    /// `OutOfMemory`, only where that room was missing.
    pub fn reserve(&mut self, messages: usize, octets: usize) -> Result<(), OutOfMemory>
        ensures datagrams { OnOk result (length self.old.sent + messages ≤ self.new.datagrams) }
        ensures octets { OnOk result (departure_octets self.old.sent + octets ≤ self.new.octets) }
        ensures full { OnErr result ((self.old.datagrams < length self.old.sent + messages)
            ⊎ (self.old.octets < departure_octets self.old.sent + octets)) }
        ensures no_loss { (self.old.datagrams ≤ self.new.datagrams)
            × (self.old.octets ≤ self.new.octets) }
        ensures same { self.new
            ≡ record self.old { datagrams = self.new.datagrams; octets = self.new.octets } }
    {
        self.slots.reserve(messages)?;
        self.octets.reserve(octets)?;
        Ok(())
    }

    /// The datagram that was sent at this place, from 0: its IPv4 address, channel and octets.
    /// `None` past the list.
    pub fn sent(&self, index: usize) -> Option<(u32, Channel, &[u8])>
        ensures { MatchOption result (length self.now.sent ≤ index) (λ d.
            slice_get self.now.sent index
            ≡ Some (record { ip = d.0; channel = d.1; bytes = d.2.now })) }
    {
        let slot = self.slots.get(index)?;
        Some((slot.ip, slot.channel, &self.octets[slot.start..slot.end]))
    }

    /// Empties the list of what was sent, and keeps its room.
    pub fn clear(&mut self)
        ensures { self.new ≡ record self.old { sent = [] } }
    {
        self.slots.clear();
        self.octets.clear();
    }
}

// A call of its own, so that dropping a value with many ports is as many calls, and no more.
impl Drop for MemPort {
    fn drop(self) {
        let MemPort {
            slots: _,
            octets: _,
            waiting: _,
            next: _,
            failing_sends: _,
            failing_receives: _,
            sends: _,
            receives: _,
            faults: _,
        } = self;
    }
}

// Adds a datagram at the end. Where no memory is found, all is as before.
#[inline(always)]
fn add(
    slots: &mut Vec<Slot>,
    octets: &mut Vec<u8>,
    ip: u32,
    channel: Channel,
    bytes: &[u8],
) -> Result<(), OutOfMemory>
    requires { IsLaidOut octets.old.items slots.old.items }
    ensures laid_out { IsLaidOut octets.new.items slots.new.items }
    ensures added { OnOk result (departures octets.new.items slots.new.items
        ≡ departures octets.old.items slots.old.items
        ++ record { ip = ip; channel = channel; bytes = bytes.now } ∷ []) }
    ensures kept { OnErr result (departures octets.new.items slots.new.items
        ≡ departures octets.old.items slots.old.items) }
    ensures fits { length slots.old.items + 1 ≤ vec_capacity slots.old
        → length octets.old.items + length bytes.now ≤ vec_capacity octets.old → IsOk result }
    ensures slots_room { vec_capacity slots.old ≤ vec_capacity slots.new }
    ensures octets_room { vec_capacity octets.old ≤ vec_capacity octets.new }
{
    let start = octets.len();
    octets.extend_from_slice(bytes)?;
    let slot = Slot {
        ip,
        channel,
        start,
        end: octets.len(),
    };
    match slots.push(slot) {
        Ok(()) => Ok(()),
        Err(_) => {
            octets.truncate(start);
            Err(OutOfMemory)
        }
    }
}

// Copies the datagram to the front, and gives its length.
fn copy_out(arrival: &Arrival, buf: &mut [u8; LONGEST_DATAGRAM]) -> usize
    requires { length arrival.now.bytes ≤ 2048 }
    ensures length { result ≡ length arrival.now.bytes }
    ensures copied { take result buf.new ≡ arrival.now.bytes }
{
    let bytes = arrival.bytes.bytes();
    buf[..bytes.len()].copy_from_slice(bytes);
    bytes.len()
}

impl Port for MemPort {
    ghost sent = { λ p. Some p.sent };

    ghost waiting = { λ p. Some p.waiting };

    ghost faults = { λ p. p.faults };

    ghost is_sure = { IsSure };

    #[inline(always)]
    fn send(&mut self, ip: u32, channel: Channel, bytes: &[u8]) -> Result<(), Failed>
        ensures handed { OnOk result (IfTold (Some self.new.sent) (append_told (Some self.old.sent)
            (record { ip = ip; channel = channel; bytes = bytes.now } ∷ []))) }
        ensures kept { OnErr result (IfTold (Some self.new.sent) (Some self.old.sent)) }
        ensures waiting { Some self.new.waiting ≡ Some self.old.waiting }
        ensures risen { OnErr result (HasRisen self.old.faults self.new.faults) }
        ensures quiet { OnOk result (self.new.faults ≡ self.old.faults) }
        ensures no_fall { HasNotFallen self.old.faults self.new.faults }
        ensures sure { (others : List Departure) → IsSure self.old
            (record { ip = ip; channel = channel; bytes = bytes.now } ∷ others)
            → IsOk result × IsSure self.new others }
        // It fails at the listed sends, and at others only past its room.
        ensures listed { Contains self.old.failing_sends self.new.sends → IsErr result }
        ensures fits { ¬ Contains self.old.failing_sends self.new.sends
            → length self.old.sent + 1 ≤ self.old.datagrams
            → departure_octets self.old.sent + length bytes.now ≤ self.old.octets → IsOk result }
        ensures faults { self.new.faults
            ≡ (if is_err result then one_more self.old.faults else self.old.faults) }
        ensures sends { self.new.sends ≡ one_more self.old.sends }
        ensures room { (self.old.datagrams ≤ self.new.datagrams)
            × (self.old.octets ≤ self.new.octets) }
        ensures same { self.new ≡ record self.old {
          sent = self.new.sent;
          datagrams = self.new.datagrams;
          octets = self.new.octets;
          sends = self.new.sends;
          faults = self.new.faults;
        } }
    {
        self.sends = self.sends.saturating_add(1);
        if self.failing_sends.contains(&self.sends)
            || add(&mut self.slots, &mut self.octets, ip, channel, bytes).is_err()
        {
            self.faults = self.faults.saturating_add(1);
            return Err(Failed);
        }
        Ok(())
    }

    fn receive(&mut self, buf: &mut [u8; LONGEST_DATAGRAM]) -> Result<Option<(u32, usize)>, Failed>
        ensures within { IfOk result (λ got. IfSome got (λ a. a.1 ≤ 2048)) }
        ensures first { IfOk result (λ got. IfSome got (λ a. IsFirstTold (Some self.old.waiting)
            (record { ip = a.0; bytes = take a.1 buf.new }))) }
        ensures nothing { IfOk result (λ got. IfNone got (IsEmptyTold (Some self.old.waiting))) }
        ensures rest { IfOk result (λ got. IfSome got (λ a.
            IfTold (Some self.new.waiting) (rest_told (Some self.old.waiting)))) }
        ensures left { IfOk result (λ got. IfNone got
            (IfTold (Some self.new.waiting) (Some self.old.waiting))) }
        ensures kept { OnErr result (IfTold (Some self.new.waiting) (Some self.old.waiting)) }
        ensures sent { Some self.new.sent ≡ Some self.old.sent }
        ensures risen { OnErr result (HasRisen self.old.faults self.new.faults) }
        ensures quiet { OnOk result (self.new.faults ≡ self.old.faults) }
        ensures no_fall { HasNotFallen self.old.faults self.new.faults }
        // It fails exactly at the listed receives.
        ensures listed { IsErr result ↔ Contains self.old.failing_receives self.new.receives }
        ensures faults { self.new.faults
            ≡ (if is_err result then one_more self.old.faults else self.old.faults) }
        ensures receives { self.new.receives ≡ one_more self.old.receives }
        ensures same { self.new ≡ record self.old {
          waiting = self.new.waiting;
          receives = self.new.receives;
          faults = self.new.faults;
        } }
    {
        self.receives = self.receives.saturating_add(1);
        if self.failing_receives.contains(&self.receives) {
            self.faults = self.faults.saturating_add(1);
            return Err(Failed);
        }
        let Some(arrival) = self.waiting.get(self.next) else {
            return Ok(None);
        };
        let length = copy_out(arrival, buf);
        let ip = arrival.ip;
        self.next += 1;
        Ok(Some((ip, length)))
    }
}
