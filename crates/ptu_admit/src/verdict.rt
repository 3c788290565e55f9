//! The answer to a request for unicast transmission: granted, short of capacity, or outside the
//! profile. Only this crate makes these values, so each is a decision that was taken.

ghost use Rattle.std.specs.Prelude.{◌≡◌, ◌<◌, ◌+◌, ◌*◌};
ghost use Rattle.ptu_units.specs.Time.{second};

use crate::profile::Wanted;
use ptu_units::{Client, Kind, Log, Moment};
use std::marker::Model;

/// The answer to an ask (IEEE 1588-2019 clause 16.1.4.1).
#[derive(Clone, Copy)]
pub enum Verdict {
    /// It is granted.
    Granted(Grant),
    /// It does not fit beside the other live grants.
    Short(Shortage),
    /// It is outside the profile.
    Outside(Outside),
}

/// Why an ask is outside the profile, by the first cause that applies.
#[derive(Clone, Copy, Debug, PartialEq, Eq)]
pub enum Outside {
    /// Its code is no kind.
    Code,
    /// Its logarithm is outside the range of the kind.
    Log,
    /// Its duration is below 60 seconds.
    Duration,
}

/// A grant as it is answered. Only this crate makes one.
#[derive(Clone, Copy)]
pub struct Grant {
    // (in an order that leaves few octets unused between them, since a verdict is copied often)
    kind: Kind,
    log: Log,
    seconds: u32,
    at: Moment,
    until: u64,
    client: Client,
}

impl Model for Grant {
    ghost use Rattle.std.specs.Prelude.{◌≡◌, ◌+◌, ◌*◌};
    ghost use Rattle.ptu_units.specs.Time.{second};
    ghost use Rattle.ptu_admit.specs.Terms.{Terms};

    ghost Value = { Terms };

    ghost view = { λ g. record {
      client = g.client;
      kind = g.kind;
      log = g.log;
      at = g.at;
      seconds = g.seconds;
      until = g.until;
    } };

    ghost invariant = { λ g. g.until ≡ g.at + g.seconds * second };

    ghost inverse = { λ g. record {
      client = g.client;
      kind = g.kind;
      log = g.log;
      at = g.at;
      seconds = g.seconds;
      until = g.until;
    } };
}

impl Grant {
    // A grant of what the client wanted, for so many seconds from the moment on.
    pub(crate) fn new(client: Client, wanted: Wanted, at: Moment, seconds: u32, until: u64) -> Grant
        requires { until ≡ at + seconds * second }
        ensures { result ≡ record {
          client = client;
          kind = wanted.kind;
          log = wanted.log;
          at = at;
          seconds = seconds;
          until = until;
        } }
    {
        Grant {
            client,
            kind: wanted.kind,
            log: wanted.log,
            at,
            seconds,
            until,
        }
    }

    /// The client that got the grant.
    pub fn client(&self) -> Client
        ensures { result ≡ self.now.client }
    {
        self.client
    }

    /// The kind that is granted.
    pub fn kind(&self) -> Kind
        ensures { result ≡ self.now.kind }
    {
        self.kind
    }

    /// The logarithm of the interval that is granted.
    pub fn log(&self) -> Log
        ensures { result ≡ self.now.log }
    {
        self.log
    }

    /// When it was granted.
    pub fn at(&self) -> Moment
        ensures { result ≡ self.now.at }
    {
        self.at
    }

    /// For how many seconds.
    pub fn seconds(&self) -> u32
        ensures { result ≡ self.now.seconds }
    {
        self.seconds
    }

    /// The end of the granted duration, in nanoseconds.
    pub fn until(&self) -> u64
        ensures value { result ≡ self.now.until }
        ensures duration { result ≡ self.now.at + self.now.seconds * second }
    {
        self.until
    }
}

/// What an ask lacks that does not fit: the rates of the other live grants and its own, in
/// sixteenths of a message per second, are above the capacity in force. Only this crate makes one.
#[derive(Clone, Copy)]
pub struct Shortage {
    kind: Kind,
    log: Log,
    at: Moment,
    others: u64,
    rate: u64,
    capacity: u64,
}

impl Model for Shortage {
    ghost use Rattle.std.specs.Prelude.{◌<◌, ◌+◌};
    ghost use Rattle.ptu_admit.specs.Terms.{Lack};

    ghost Value = { Lack };

    ghost view = { λ s. record {
      kind = s.kind;
      log = s.log;
      at = s.at;
      others = s.others;
      rate = s.rate;
      capacity = s.capacity;
    } };

    ghost invariant = { λ s. s.capacity < s.others + s.rate };

    ghost inverse = { λ s. record {
      kind = s.kind;
      log = s.log;
      at = s.at;
      others = s.others;
      rate = s.rate;
      capacity = s.capacity;
    } };
}

impl Shortage {
    // What is short of what was wanted, beside other live grants with these rates.
    pub(crate) fn new(wanted: Wanted, at: Moment, others: u64, rate: u64, capacity: u64) -> Shortage
        requires { capacity < others + rate }
        ensures { result ≡ record {
          kind = wanted.kind;
          log = wanted.log;
          at = at;
          others = others;
          rate = rate;
          capacity = capacity;
        } }
    {
        Shortage {
            kind: wanted.kind,
            log: wanted.log,
            at,
            others,
            rate,
            capacity,
        }
    }

    /// The kind that was asked for.
    pub fn kind(&self) -> Kind
        ensures { result ≡ self.now.kind }
    {
        self.kind
    }

    /// The logarithm of the interval that was asked for.
    pub fn log(&self) -> Log
        ensures { result ≡ self.now.log }
    {
        self.log
    }

    /// When it was decided.
    pub fn at(&self) -> Moment
        ensures { result ≡ self.now.at }
    {
        self.at
    }

    /// The sum of the rates of the other live grants.
    pub fn others(&self) -> u64
        ensures { result ≡ self.now.others }
    {
        self.others
    }

    /// The rate that was asked for.
    pub fn rate(&self) -> u64
        ensures { result ≡ self.now.rate }
    {
        self.rate
    }

    /// The capacity in force.
    pub fn capacity(&self) -> u64
        ensures value { result ≡ self.now.capacity }
        ensures above { result < self.now.others + self.now.rate }
    {
        self.capacity
    }
}
