//! The settings of a slave.
ghost use Rattle.std.specs.Prelude.{◌≡◌, ◌⊎◌, None, Some, IfOk, IfErr, OnOk, option_map};
ghost use Rattle.toml.specs.View.{table_view};
ghost use Rattle.ptu_config.specs.Rules.{slave_keys};
ghost use Rattle.ptu_config.specs.Documents.{Reads, Refuses, Says, first_bad, refusal_of};
ghost use Rattle.ptu_config.specs.{Entries.{slave_entries}, Limits.{IsSlaveInRange}};
ghost use Rattle.ptu_config.specs.declared.fault.SettingFault.TheVariants.{OutOfMemory as NoMemory};

use crate::common::common_of;
use crate::document::document;
use crate::fault::SettingFault;
use crate::key::Key;
use crate::limited::{announce_log, duration_or, timeout, wait};
use crate::master_tables::master_list;
use crate::settings::SlaveSettings;
use crate::values::{log, log_or};
use ptu_units::{GrantSeconds, Kind};
use std::alloc::Global;
use toml::Table;

/// The settings of a slave, in their order.
const SLAVE_KEYS: [Key; 17] = [
    Key::Ip,
    Key::EventPort,
    Key::GeneralPort,
    Key::Clock,
    Key::Port,
    Key::Domain,
    Key::Rounds,
    Key::Repeat,
    Key::WaitToRestore,
    Key::AnnounceTimeout,
    Key::SyncTimeout,
    Key::DelayTimeout,
    Key::LogAnnounce,
    Key::LogSync,
    Key::LogDelay,
    Key::Duration,
    Key::Masters,
];

// The settings that a table says, or the first of them that is bad.
fn slave_of(alloc: Global, table: &Table) -> Result<SlaveSettings, SettingFault>
    ensures said { IfOk result (λ settings. Says (table_view table.now) (slave_entries settings)) }
    ensures in_range { IfOk result IsSlaveInRange }
    ensures none_bad { OnOk result (first_bad slave_keys (table_view table.now) ≡ None) }
    ensures bad { IfErr result (λ fault. (fault ≡ NoMemory) ⊎
        (option_map SettingFault.Bad (first_bad slave_keys (table_view table.now)) ≡ Some fault)) }
{
    let common = common_of(table)?;
    let wait_to_restore = wait(table)?;
    let announce_timeout = timeout(table, Key::AnnounceTimeout)?;
    let sync_timeout = timeout(table, Key::SyncTimeout)?;
    let delay_timeout = timeout(table, Key::DelayTimeout)?;
    let log_announce = announce_log(table)?;
    let log_sync = log_or(table, Key::LogSync, Kind::Sync, -4)?;
    let log_delay = log(table, Key::LogDelay, Kind::DelayResp)?;
    let duration = duration_or(table, Key::Duration, GrantSeconds::REQUESTED)?;
    let masters = master_list(alloc, table)?;
    Ok(SlaveSettings {
        ip: common.ip,
        event_port: common.event_port,
        general_port: common.general_port,
        clock: common.clock,
        port: common.port,
        domain: common.domain,
        rounds: common.rounds,
        repeat: common.repeat,
        wait_to_restore,
        announce_timeout,
        sync_timeout,
        delay_timeout,
        log_announce,
        log_sync,
        log_delay,
        duration,
        masters,
    })
}

/// The settings of a slave's daemon that these octets are, a TOML document of at most 65536
/// octets.
///
/// # Errors
/// The first of `Size`, `Text`, `Unknown` and `Bad` that applies, with the first bad setting in the
/// order of `Key`; or `OutOfMemory`.
pub fn slave_settings(alloc: Global, bytes: &[u8]) -> Result<SlaveSettings, SettingFault>
    // The document says just these values, and nothing speaks against it.
    ensures read { IfOk result (λ settings. Reads bytes.now (slave_entries settings)) }
    ensures in_range { IfOk result IsSlaveInRange }
    ensures accepted { OnOk result (refusal_of slave_keys bytes.now ≡ None) }
    ensures refused { IfErr result (Refuses slave_keys bytes.now) }
{
    let table = document(alloc, bytes, &SLAVE_KEYS)?;
    slave_of(alloc, &table)
}
