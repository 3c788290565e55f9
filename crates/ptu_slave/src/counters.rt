//! The sequenceIds of what a slave sends to one master (IEEE 1588-2019 clause 7.3.7).

ghost use Rattle.std.specs.Prelude.{◌≡◌, ℕ, cond, [], ◌∷◌, ◌++◌, Some, None, option_map, option_to_list};
ghost use Rattle.ptu_record.specs.Record.{Record, Probed, Signalled};
ghost use Rattle.ptu_record.specs.Tick.{delay_req_number, signaling_number};
ghost use Rattle.ptu_slave.specs.Kept.{CountFor};

use ptu_units::Moment;

/// What a slave counts of what it sends to one master (IEEE 1588-2019 clause 7.3.7).
#[derive(Clone, Copy)]
pub struct Counters {
    /// The sequenceId of the next Signaling that is no reply.
    pub signaling: u16,
    /// The sequenceId of the next Delay_Req.
    pub delay_req: u16,
    /// The moment of the last Delay_Req.
    pub probed: Option<Moment>,
}

impl Counters {
    /// The counters of a master that nothing was sent to.
    pub fn new() -> Counters
        ensures { CountFor result [] }
    {
        Counters {
            signaling: 0,
            delay_req: 0,
            probed: None,
        }
    }

    /// The sequenceId of a Signaling, which it takes where it is sent.
    pub fn signal(&mut self, at: Moment, is_sent: bool) -> u16
        ensures number { (L : Record) → CountFor self.old L → result ≡ signaling_number L }
        ensures counted { (L : Record) (m : ℕ) → CountFor self.old L →
            CountFor self.new (L ++ cond is_sent (Signalled at m ∷ []) []) }
    {
        let _ = at;
        let number = self.signaling;
        if is_sent {
            self.signaling = number.wrapping_add(1);
        }
        number
    }

    /// The sequenceId of a Delay_Req, where one is sent.
    pub fn probe(&mut self, at: Moment, is_sent: bool) -> Option<u16>
        ensures number { (L : Record) → CountFor self.old L →
            result ≡ cond is_sent (Some (delay_req_number L)) None }
        ensures counted { (L : Record) (m : ℕ) → CountFor self.old L →
            CountFor self.new (L ++ cond is_sent (Probed at m ∷ []) []) }
    {
        if !is_sent {
            return None;
        }
        let number = self.delay_req;
        self.delay_req = number.wrapping_add(1);
        self.probed = Some(at);
        Some(number)
    }
}
