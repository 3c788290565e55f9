//! Changes of capacity.

ghost use Rattle.std.specs.Prelude.{◌≡◌, ◌<◌, ◌+◌, ◌%◌, [], ◌∷◌, length, IfOk, OnErr};
ghost use Rattle.ptu_outside.specs.HandsOver.{HandsOver, failed_in, sent_in};
ghost use Rattle.ptu_gm_messages.specs.Replies.{cancel_to, cancels_to};
ghost use Rattle.ptu_grandmaster.specs.Changed.{HasChanged, leases_shed};

use crate::gm::Gm;
use ptu_admit::{InForce, Shed, ShedList, resize};
use ptu_gm_messages::cancel_of;
use ptu_outside::{Channel, Failed, Port, Sends, hand};
use ptu_profile::GmConfig;
use ptu_units::sizes::LONGEST_SIGNALING;
use ptu_units::{Capacity, Moment, OutOfMemory};

/// What a change of capacity did.
#[derive(Drop)]
pub struct Changed {
    /// When it was decided.
    pub at: Moment,
    /// The grants that were shed, in order.
    pub shed: ShedList,
    /// How many CANCELs were sent.
    pub sent: u64,
    /// How many sends of a CANCEL failed.
    pub failed: u64,
}

// Hands the CANCEL of a grant that was shed to the port.
fn send_cancel<P: Port>(
    port: &mut P,
    config: &GmConfig,
    sequence: u16,
    shed: &Shed,
) -> Result<(), Failed>
    ensures { HandsOver P.Port port.old port.new
        (cancel_to config.now shed.now.client shed.now.kind sequence ∷ [])
        (sent_in result) (failed_in result) }
{
    let mut out = [0; LONGEST_SIGNALING];
    let size = cancel_of(config, &shed.client, shed.kind, sequence, &mut out);
    hand(port, shed.client.ip, Channel::General, &out[..size])
}

/// Hands the CANCELs of these grants to the port, in order, numbered from `first` on, each to its
/// client on the general channel (IEEE 1588-2019 clause 16.1). Gives how many were sent and how
/// many failed to be.
pub fn send_cancels<P: Port>(port: &mut P, config: &GmConfig, first: u16, shed: &[Shed]) -> Sends
    ensures sends { HandsOver P.Port port.old port.new
        (cancels_to config.now first (leases_shed shed.now)) result.sent result.failed }
    ensures count { result.sent + result.failed ≡ length shed.now }
{
    let mut sequence = first;
    let mut sends = Sends::none();
    for grant in shed {
        sends = sends.and(Sends::of(send_cancel(port, config, sequence, grant)));
        sequence = sequence.wrapping_add(1);
    }
    sends
}

/// The sequenceId that comes so many after this one.
pub fn sequence_after(sequence: u16, count: u64) -> u16
    ensures { result ≡ (sequence + count) % 65536 }
{
    sequence.wrapping_add((count % 65536) as u16)
}

impl<P: Port> Gm<P> {
    /// Changes the capacity in force, at the core's moment for `t`. Where the live grants are above
    /// it, the newest are shed until the rest fits, each with a CANCEL to its client. These are
    /// numbered from 0 for a grandmaster, failed ones too.
    ///
    /// # Errors
    /// `OutOfMemory`, only where what is reserved is above the new capacity. Nothing has changed
    /// then, and nothing was sent.
    pub fn put_in_force(&mut self, t: Moment, capacity: InForce) -> Result<Changed, OutOfMemory>
        ensures unchanged { OnErr result (self.new ≡ self.old) }
        ensures memory { OnErr result (capacity < self.old.book.total) }
        ensures changed { IfOk result (HasChanged P.Port t capacity self.old self.new) }
    {
        let resized = resize(
            self.alloc,
            &mut self.s0,
            &mut self.s1,
            &mut self.s2,
            &mut self.s3,
            &mut self.book,
            t,
            capacity,
        )?;
        let shed = resized.shed;
        let sends = send_cancels(&mut self.reply, &self.config, self.sequence, shed.list());
        self.sequence = sequence_after(self.sequence, sends.sent + sends.failed);
        Ok(Changed {
            at: resized.at,
            shed,
            sent: sends.sent,
            failed: sends.failed,
        })
    }

    /// Changes the capacity in force to this one of the settings, as `put_in_force` does.
    ///
    /// # Errors
    /// As `put_in_force`.
    pub fn set_capacity(&mut self, t: Moment, capacity: Capacity) -> Result<Changed, OutOfMemory>
        ensures unchanged { OnErr result (self.new ≡ self.old) }
        ensures memory { OnErr result (capacity < self.old.book.total) }
        ensures changed { IfOk result (HasChanged P.Port t capacity self.old self.new) }
    {
        self.put_in_force(t, InForce::of(capacity))
    }
}
