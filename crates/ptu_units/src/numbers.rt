//! Numbers by which nodes are told apart: of a domain, of a PTP port, and of a UDP port.

ghost use Rattle.std.specs.{Prelude.{◌≡◌}, Option.{SomeIff}};
ghost use Rattle.ptu_units.specs.Limits.{IsDomain, IsPort, IsUdpPort};

use std::marker::Model;

/// The domainNumber of a node (IEEE 1588-2019 clause 7.1), from 4 to 23, which is the project's own
/// choice. A clause sees it as that number.
#[derive(Clone, Copy, Debug, PartialEq, Eq)]
pub struct Domain {
    number: u8,
}

impl Model for Domain {
    ghost use Rattle.std.specs.Prelude.{ℕ};
    ghost use Rattle.ptu_units.specs.Limits.{IsDomain};

    ghost Value = { ℕ };

    ghost view = { λ it. it.number };

    ghost invariant = { λ it. IsDomain it.number };

    ghost inverse = { λ n. record { number = n } };
}

impl Domain {
    /// The least.
    pub const LEAST: u8 = 4;

    /// The greatest.
    pub const GREATEST: u8 = 23;

    /// The domain of a node whose settings name none.
    pub const DEFAULT: Domain = Domain { number: 4 };

    /// The domain of this number, or `None` outside 4 to 23.
    pub fn of(number: u64) -> Option<Domain>
        ensures { SomeIff result (IsDomain number) number }
    {
        if u64::from(Domain::LEAST) <= number && number <= u64::from(Domain::GREATEST) {
            Some(Domain {
                number: number as u8,
            })
        } else {
            None
        }
    }

    /// The number, from 4 to 23.
    pub fn get(self) -> u8
        ensures value { result ≡ self }
        ensures range { IsDomain self }
    {
        self.number
    }
}

/// The portNumber of a port identity, from 1 to 65534 (IEEE 1588-2019 clause 7.5.2.3). A clause
/// sees it as that number.
#[derive(Clone, Copy, Debug, PartialEq, Eq)]
pub struct PortNumber {
    number: u16,
}

impl Model for PortNumber {
    ghost use Rattle.std.specs.Prelude.{ℕ};
    ghost use Rattle.ptu_units.specs.Limits.{IsPort};

    ghost Value = { ℕ };

    ghost view = { λ it. it.number };

    ghost invariant = { λ it. IsPort it.number };

    ghost inverse = { λ n. record { number = n } };
}

impl PortNumber {
    /// The least.
    pub const LEAST: u16 = 1;

    /// The greatest.
    pub const GREATEST: u16 = 65534;

    /// The port of a node whose settings name none.
    pub const DEFAULT: PortNumber = PortNumber { number: 1 };

    /// The port of this number, or `None` outside 1 to 65534.
    pub fn of(number: u64) -> Option<PortNumber>
        ensures { SomeIff result (IsPort number) number }
    {
        if u64::from(PortNumber::LEAST) <= number && number <= u64::from(PortNumber::GREATEST) {
            Some(PortNumber {
                number: number as u16,
            })
        } else {
            None
        }
    }

    /// The number, from 1 to 65534.
    pub fn get(self) -> u16
        ensures value { result ≡ self }
        ensures range { IsPort self }
    {
        self.number
    }
}

/// A UDP port number at which a node is opened, from 1 to 65535. A clause sees it as that number.
#[derive(Clone, Copy, Debug, PartialEq, Eq)]
pub struct UdpPortNumber {
    number: u16,
}

impl Model for UdpPortNumber {
    ghost use Rattle.std.specs.Prelude.{ℕ};
    ghost use Rattle.ptu_units.specs.Limits.{IsUdpPort};

    ghost Value = { ℕ };

    ghost view = { λ it. it.number };

    ghost invariant = { λ it. IsUdpPort it.number };

    ghost inverse = { λ n. record { number = n } };
}

impl UdpPortNumber {
    /// The least.
    pub const LEAST: u16 = 1;

    /// The greatest.
    pub const GREATEST: u16 = 65535;

    /// The UDP port of event messages (IEEE 1588-2019 clause C.2).
    pub const EVENT: UdpPortNumber = UdpPortNumber { number: 319 };

    /// The UDP port of general messages (IEEE 1588-2019 clause C.2).
    pub const GENERAL: UdpPortNumber = UdpPortNumber { number: 320 };

    /// The UDP port of this number, or `None` outside 1 to 65535.
    pub fn of(number: u64) -> Option<UdpPortNumber>
        ensures { SomeIff result (IsUdpPort number) number }
    {
        if u64::from(UdpPortNumber::LEAST) <= number
            && number <= u64::from(UdpPortNumber::GREATEST)
        {
            Some(UdpPortNumber {
                number: number as u16,
            })
        } else {
            None
        }
    }

    /// The number, from 1 to 65535.
    pub fn get(self) -> u16
        ensures value { result ≡ self }
        ensures range { IsUdpPort self }
    {
        self.number
    }
}
