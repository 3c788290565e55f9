//! The settings of both nodes.
ghost use Rattle.std.specs.Prelude.{◌≡◌, Some, None, IfOk, IfErr, OnOk, option_map};
ghost use Rattle.toml.specs.View.{table_view};
ghost use Rattle.ptu_config.specs.{Rules.{common_keys}, Documents.{Says, first_bad}};
ghost use Rattle.ptu_config.specs.Common.{IsCommonInRange, common_entries};

use crate::fault::SettingFault;
use crate::key::Key;
use crate::limited::{domain, port, udp_port_or};
use crate::values::{address, identity, whole, whole_or};
use ptu_units::{Domain, PortNumber, UdpPortNumber};
use toml::Table;

/// How often the rounds are done over at most.
const MOST_REPEATS: u32 = 1000;

/// The settings of both nodes.
#[derive(Clone, Copy)]
pub(crate) struct Common {
    pub(crate) ip: u32,
    pub(crate) event_port: UdpPortNumber,
    pub(crate) general_port: UdpPortNumber,
    pub(crate) clock: u64,
    pub(crate) port: PortNumber,
    pub(crate) domain: Domain,
    pub(crate) rounds: u32,
    pub(crate) repeat: u32,
}

/// The settings of both nodes that a table says, or the first of them that is bad.
pub(crate) fn common_of(table: &Table) -> Result<Common, SettingFault>
    ensures said { IfOk result (λ common. Says (table_view table.now) (common_entries common)) }
    ensures in_range { IfOk result IsCommonInRange }
    ensures bad { IfErr result (λ fault.
        option_map SettingFault.Bad (first_bad common_keys (table_view table.now)) ≡ Some fault) }
{
    let ip = address(table, Key::Ip)?;
    let event_port = udp_port_or(table, Key::EventPort, UdpPortNumber::EVENT)?;
    let general_port = udp_port_or(table, Key::GeneralPort, UdpPortNumber::GENERAL)?;
    let clock = identity(table, Key::Clock)?;
    let port = port(table)?;
    let domain = domain(table)?;
    let rounds = whole(table, Key::Rounds, 1, u32::MAX)?;
    let repeat = whole_or(table, Key::Repeat, 1, MOST_REPEATS, 1)?;
    Ok(Common {
        ip,
        event_port,
        general_port,
        clock,
        port,
        domain,
        rounds,
        repeat,
    })
}
