//! The negotiation of one kind with one master.

ghost use Rattle.std.specs.Prelude.{◌≡◌, ℕ, ◌<◌, ◌≤◌, [], false, unwrap_or};
ghost use Rattle.ptu_units.specs.declared.kind.Kind.{Kind};
ghost use Rattle.ptu_record.specs.Record.{Record, Asked, Granted, Denied, Cancelled};
ghost use Rattle.ptu_record.specs.Grants.{is_live};
ghost use Rattle.ptu_record.specs.Asks.{ask_gate, refusal_gate, renewal_gate, gate, is_due};
ghost use Rattle.ptu_requester.specs.Negotiation.{Enters, IsKept, entry_of};

use ptu_units::Moment;
use ptu_units::timescale::NANOS_PER_SECOND;

// Half of a second, in nanoseconds.
const HALF_SECOND: u64 = 500_000_000;

const NANOS_PER_MINUTE: u64 = 60_000_000_000;

/// What changes a negotiation.
#[derive(Clone, Copy)]
pub enum Change {
    /// A REQUEST was sent, or failed to be sent.
    Ask,
    /// A GRANT for so many seconds, more than 0, was accepted.
    Grant(u32),
    /// A GRANT for 0 seconds was accepted.
    Denial,
    /// A CANCEL was accepted.
    Cancel,
}

/// The term of a grant: so many seconds from its moment on.
#[derive(Clone, Copy)]
pub struct Term {
    pub at: Moment,
    pub seconds: u32,
}

/// What is kept of one kind at one master.
#[derive(Clone, Copy)]
pub struct Negotiation {
    /// How many asks there were since the last answer, modulo 3.
    pub unanswered: u8,
    /// The last of them.
    pub asked: Option<Moment>,
    /// The last denial or CANCEL.
    pub refused: Option<Moment>,
    /// The last grant, unless a CANCEL ended it.
    pub granted: Option<Term>,
    /// The first grant of the last run in which each grant found the one before it live.
    pub run_start: Option<Moment>,
}

impl Negotiation {
    /// The negotiation of a kind before anything was asked or answered.
    pub fn new() -> Negotiation
        ensures { (k : Kind) → IsKept k [] result }
    {
        Negotiation {
            unanswered: 0,
            asked: None,
            refused: None,
            granted: None,
            run_start: None,
        }
    }

    /// Enters a change at a moment.
    pub fn enter(&mut self, t: Moment, change: Change)
        ensures { Enters (entry_of change t) self.old self.new }
    {
        match change {
            Change::Ask => self.ask(t),
            Change::Grant(seconds) => self.accept(t, seconds),
            Change::Denial => self.deny(t),
            Change::Cancel => self.cancel(t),
        }
    }

    fn ask(&mut self, t: Moment)
        ensures { Enters (Asked t) self.old self.new }
    {
        self.unanswered = if self.unanswered < 2 {
            self.unanswered + 1
        } else {
            0
        };
        self.asked = Some(t);
    }

    fn accept(&mut self, t: Moment, seconds: u32)
        ensures { Enters (λ m k. Granted t m k seconds) self.old self.new }
    {
        self.run_start = if self.is_live(t) {
            self.run_start
        } else {
            Some(t)
        };
        self.asked = None;
        self.unanswered = 0;
        self.granted = Some(Term { at: t, seconds });
    }

    fn deny(&mut self, t: Moment)
        ensures { Enters (Denied t) self.old self.new }
    {
        self.asked = None;
        self.unanswered = 0;
        self.refused = Some(t);
    }

    fn cancel(&mut self, t: Moment)
        ensures { Enters (Cancelled t) self.old self.new }
    {
        self.asked = None;
        self.unanswered = 0;
        self.refused = Some(t);
        self.granted = None;
    }

    /// Whether the grant is live at a moment.
    pub fn is_live(&self, t: Moment) -> bool
        ensures { (k : Kind) (L : Record) → IsKept k L self.now → result ≡ is_live k L t }
    {
        match self.granted {
            Some(term) => t.nanos() < term.at.nanos() + term.seconds as u64 * NANOS_PER_SECOND,
            None => false,
        }
    }

    /// Whether the kind is to be asked for at a moment.
    pub fn is_due(&self, t: Moment) -> bool
        ensures { (k : Kind) (L : Record) → IsKept k L self.now → result ≡ is_due k L t }
    {
        let gate = self.due_from(t);
        gate <= t.nanos()
    }

    /// From when on the kind is to be asked for, where nothing is entered after `t`: up to `t`
    /// where it is to be asked for at `t`, else the first moment after it, in nanoseconds.
    pub fn due_from(&self, t: Moment) -> u64
        ensures gate { (k : Kind) (L : Record) → IsKept k L self.now → result ≡ gate k L t }
        ensures idle { (k : Kind) (L : Record) → IsKept k L self.now →
            (x : ℕ) → t ≤ x → x < result → is_due k L x ≡ false }
    {
        self.ask_gate()
            .max(self.refusal_gate())
            .max(self.renewal_gate(t))
    }

    // The moment at which the last ask without an answer has waited long enough, or 0 where there
    // is none.
    fn ask_gate(&self) -> u64
        ensures { (k : Kind) (L : Record) → IsKept k L self.now →
            result ≡ unwrap_or (ask_gate k L) 0 }
    {
        match self.asked {
            Some(at) if self.unanswered == 0 => at.nanos() + NANOS_PER_MINUTE,
            Some(at) => at.nanos() + NANOS_PER_SECOND,
            None => 0,
        }
    }

    // The moment at which the last denial or CANCEL is a minute ago, or 0 where there is none.
    fn refusal_gate(&self) -> u64
        ensures { (k : Kind) (L : Record) → IsKept k L self.now →
            result ≡ unwrap_or (refusal_gate k L) 0 }
    {
        match self.refused {
            Some(at) => at.nanos() + NANOS_PER_MINUTE,
            None => 0,
        }
    }

    // The moment at which half of the live grant is over, or 0 where none is live.
    fn renewal_gate(&self, t: Moment) -> u64
        ensures { (k : Kind) (L : Record) → IsKept k L self.now →
            result ≡ unwrap_or (renewal_gate k L t) 0 }
    {
        if !self.is_live(t) {
            return 0;
        }
        match self.granted {
            Some(term) => term.at.nanos() + term.seconds as u64 * HALF_SECOND,
            None => 0,
        }
    }
}
