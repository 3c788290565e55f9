//! What a line of a script commands.

use crate::act::Act;
use ptu_record::{Rule, Wants};
use ptu_units::{
    Capacity, Domain, GrantSeconds, Moment, PortNumber, ReceiptTimeout, WaitToRestore,
};

/// What `gm IP CLOCK PORT DOMAIN CLASS CAPACITY MAX` says.
#[derive(Clone, Copy)]
pub struct GrandmasterSetup {
    /// The address, its first octet the highest.
    pub ip: u32,
    /// The clockIdentity of its port identity.
    pub clock: u64,
    /// The portNumber of its port identity.
    pub port: PortNumber,
    /// The domainNumber.
    pub domain: Domain,
    /// The clockClass.
    pub class: u8,
    /// The capacity.
    pub capacity: Capacity,
    /// The longest duration that it grants.
    pub max_duration: GrantSeconds,
}

/// What `slave IP CLOCK PORT DOMAIN WAIT TA TS LA LS LD DUR TD` says.
#[derive(Clone, Copy)]
pub struct SlaveSetup {
    /// The address, its first octet the highest.
    pub ip: u32,
    /// The clockIdentity of its port identity.
    pub clock: u64,
    /// The portNumber of its port identity.
    pub port: PortNumber,
    /// The domainNumber.
    pub domain: Domain,
    /// How long a master waits to be restored.
    pub wait: WaitToRestore,
    /// After how many Announce intervals an Announce is lost.
    pub announce_timeout: ReceiptTimeout,
    /// After how many Sync intervals a Sync is lost.
    pub sync_timeout: ReceiptTimeout,
    /// After how many Delay_Req intervals a Delay_Resp is lost; the default where the line has no
    /// such word.
    pub delay_timeout: ReceiptTimeout,
    /// What it asks its masters for.
    pub wants: Wants,
}

/// What a line of a script commands. The first three set nodes up, the others are events.
#[derive(Drop)]
pub enum Command<'a> {
    /// A grandmaster is set up.
    Grandmaster(GrandmasterSetup),
    /// A slave without masters is set up.
    Slave(SlaveSetup),
    /// A slave gets a master at the end of its list, with a judge of the rule.
    Master {
        slave: u32,
        ip: u32,
        priority: u8,
        rule: Rule,
    },
    /// The datagram that was sent with this number is handed to the node of its address.
    Deliver {
        at: Moment,
        number: u64,
    },
    /// The node at an address is told this, at a moment: 0 where the line has none, as that of a
    /// change of the clockClass.
    Event {
        at: Moment,
        node: u32,
        act: Act<'a>,
    },
}
