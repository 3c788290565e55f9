//! The trait of what sends and receives datagrams. Its contract speaks of what was sent and of what
//! waits, as far as the port makes that observable.

ghost use Rattle.std.specs.Prelude.{◌≡◌, ◌≤◌, ℕ, Bool, true, false, List, [], ◌∷◌, Option, take, IfOk, IsOk, OnOk, OnErr, IfSome, IfNone};
ghost use Rattle.ptu_outside.specs.{declared.arrival.Arrival.{Arrival}, Departure.{Departure}};
ghost use Rattle.ptu_outside.specs.Faults.{HasRisen, HasNotFallen, one_more};
ghost use Rattle.ptu_outside.specs.Telling.{IfTold, IsFirstTold, IsEmptyTold, TellsOn, append_told, rest_told};

use crate::channel::Channel;
use crate::failed::Failed;
use ptu_units::Moment;
use ptu_units::sizes::LONGEST_DATAGRAM;

/// Where datagrams are sent and received.
pub trait Port: Drop {
    /// The datagrams that were sent, in order, if they are observable.
    ghost sent: { Self → Option (List Departure) };

    /// The datagrams that wait to be received, in order, if they are observable.
    ghost waiting: { Self → Option (List Arrival) };

    /// How many faults there have been.
    ghost faults: { Self → ℕ };

    /// Whether a call that fails counts as just one fault. It may count as more where it makes
    /// several calls of another port.
    ghost counts_once: { Bool } = { true };

    /// Whether what was sent may stop being observable once this datagram is sent.
    ghost ceases_at: { Departure → Bool } = { λ _. false };

    /// Whether the port is sure to send these, one after the other.
    ghost is_sure: { Self → List Departure → Type 0 } = { λ _ _. ⊥ };

    /// Hands the datagram over whole, to this IPv4 address (its first octet the highest) on this
    /// channel.
    fn send(&mut self, ip: u32, channel: Channel, bytes: &[u8]) -> Result<(), Failed>
        // What was sent, where it is still told, has this datagram at its end, and is as before
        // after a fault.
        ensures handed { OnOk result (IfTold (sent self.new) (append_told (sent self.old)
            (record { ip = ip; channel = channel; bytes = bytes.now } ∷ []))) }
        ensures kept { OnErr result (IfTold (sent self.new) (sent self.old)) }
        ensures waiting { waiting self.new ≡ waiting self.old }
        ensures risen { OnErr result (HasRisen (faults self.old) (faults self.new)) }
        ensures once { OnErr result (counts_once ≡ true
            → faults self.new ≡ one_more (faults self.old)) }
        ensures quiet { OnOk result (faults self.new ≡ faults self.old) }
        ensures no_fall { HasNotFallen (faults self.old) (faults self.new) }
        ensures goes_on { OnOk result (ceases_at
            (record { ip = ip; channel = channel; bytes = bytes.now }) ≡ false
            → TellsOn (sent self.old) (sent self.new)) }
        // Where it was sure to send this and others behind it, it has sent this, and is sure to
        // send the others.
        ensures sure { (others : List Departure) → is_sure self.old
            (record { ip = ip; channel = channel; bytes = bytes.now } ∷ others)
            → IsOk result × is_sure self.new others };

    /// Takes the first datagram that waits: the sender's IPv4 address and the length. The datagram
    /// is that many octets from the front of `buf`. `None` where none waits.
    fn receive(&mut self, buf: &mut [u8; LONGEST_DATAGRAM]) -> Result<Option<(u32, usize)>, Failed>
        ensures within { IfOk result (λ got. IfSome got (λ a. a.1 ≤ 2048)) }
        ensures first { IfOk result (λ got. IfSome got (λ a. IsFirstTold (waiting self.old)
            (record { ip = a.0; bytes = take a.1 buf.new }))) }
        ensures nothing { IfOk result (λ got. IfNone got (IsEmptyTold (waiting self.old))) }
        // What waits, where it is still told, has lost its first, and is as before after `None` and
        // a fault.
        ensures rest { IfOk result (λ got. IfSome got (λ a.
            IfTold (waiting self.new) (rest_told (waiting self.old)))) }
        ensures left { IfOk result (λ got. IfNone got
            (IfTold (waiting self.new) (waiting self.old))) }
        ensures kept { OnErr result (IfTold (waiting self.new) (waiting self.old)) }
        ensures sent { sent self.new ≡ sent self.old }
        ensures risen { OnErr result (HasRisen (faults self.old) (faults self.new)) }
        ensures once { OnErr result (counts_once ≡ true
            → faults self.new ≡ one_more (faults self.old)) }
        ensures quiet { OnOk result (faults self.new ≡ faults self.old) }
        ensures no_fall { HasNotFallen (faults self.old) (faults self.new) };

    /// Waits until a datagram is there to receive, or until this moment of the clocks that were
    /// opened beside the port, whichever is first, and no longer than the port allows. Nothing is
    /// received or sent. A port in memory returns at once.
    fn wait(&mut self, until: Moment)
        ensures sent { sent self.new ≡ sent self.old }
        ensures waiting { waiting self.new ≡ waiting self.old }
        ensures quiet { faults self.new ≡ faults self.old }
        ensures sure { (datagrams : List Departure) → is_sure self.old datagrams
            → is_sure self.new datagrams }
    {
        let _ = until;
    }
}
