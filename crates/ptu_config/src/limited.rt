//! Settings whose types keep their limits.
ghost use Rattle.std.specs.Prelude.{◌≡◌, IfOk, IfSome, pos};
ghost use Rattle.toml.specs.View.{view, table_view};
ghost use Rattle.ptu_units.specs.declared.kind.Kind.TheVariants.{Announce};
ghost use Rattle.ptu_units.specs.Log.{IsLogOf, least_log};
ghost use Rattle.ptu_units.specs.Limits.{IsCapacity, IsDomain, IsDuration, IsEpoch, IsPort};
ghost use Rattle.ptu_units.specs.Limits.{IsSenders, IsTimeout, IsUdpPort, IsWait};
ghost use Rattle.ptu_units.specs.Limits.{least_capacity, greatest_capacity, least_domain};
ghost use Rattle.ptu_units.specs.Limits.{greatest_domain, least_duration, greatest_duration};
ghost use Rattle.ptu_units.specs.Limits.{greatest_epoch, least_port, greatest_port};
ghost use Rattle.ptu_units.specs.Limits.{greatest_senders, least_timeout, greatest_timeout};
ghost use Rattle.ptu_units.specs.Limits.{least_udp_port, greatest_udp_port, greatest_wait};
ghost use Rattle.ptu_config.specs.{Documents.{IsSaid}, Forms.{signed_in, whole_in}};
ghost use Rattle.ptu_config.specs.Rules.{rule_of, optional, whole, number, logarithm};

use crate::fault::SettingFault;
use crate::key::Key;
use crate::values::{log_of, lookup, whole_of};
use ptu_units::{
    AnnounceLog, Capacity, Domain, Epoch, GrantSeconds, Kind, PortNumber, ReceiptTimeout, Senders,
    UdpPortNumber, WaitToRestore,
};
use toml::{Table, Value};

// A UDP port number.
fn udp_port_of(value: &Value) -> Option<UdpPortNumber>
    ensures value { result ≡ whole_in least_udp_port greatest_udp_port (view value.now) }
    ensures range { IfSome result IsUdpPort }
{
    UdpPortNumber::of(whole_of(
        value,
        UdpPortNumber::LEAST.into(),
        UdpPortNumber::GREATEST.into(),
    )?)
}

/// A setting that is a UDP port number, and `otherwise` where its key is not there.
#[tactic(auto, unfolding(crate::specs::Rules::setting_of))]
pub(crate) fn udp_port_or(
    table: &Table,
    key: Key,
    otherwise: UdpPortNumber,
) -> Result<UdpPortNumber, SettingFault>
    requires { rule_of key ≡ optional (whole least_udp_port greatest_udp_port) (number otherwise) }
    ensures said { IsSaid (table_view table.now) key number result }
    ensures range { IfOk result IsUdpPort }
{
    match lookup(table, key.name()) {
        Some(value) => udp_port_of(value).ok_or(SettingFault::Bad(key)),
        None => Ok(otherwise),
    }
}

// The portNumber of a port identity.
fn port_of(value: &Value) -> Option<PortNumber>
    ensures value { result ≡ whole_in least_port greatest_port (view value.now) }
    ensures range { IfSome result IsPort }
{
    PortNumber::of(whole_of(value, PortNumber::LEAST.into(), PortNumber::GREATEST.into())?)
}

/// The setting `port`.
#[tactic(auto, unfolding(crate::specs::Rules::setting_of))]
pub(crate) fn port(table: &Table) -> Result<PortNumber, SettingFault>
    ensures said { IsSaid (table_view table.now) Key.Port number result }
    ensures range { IfOk result IsPort }
{
    match lookup(table, Key::Port.name()) {
        Some(value) => port_of(value).ok_or(SettingFault::Bad(Key::Port)),
        None => Ok(PortNumber::DEFAULT),
    }
}

// A domainNumber.
fn domain_of(value: &Value) -> Option<Domain>
    ensures value { result ≡ whole_in least_domain greatest_domain (view value.now) }
    ensures range { IfSome result IsDomain }
{
    Domain::of(whole_of(value, Domain::LEAST.into(), Domain::GREATEST.into())?)
}

/// The setting `domain`.
#[tactic(auto, unfolding(crate::specs::Rules::setting_of))]
pub(crate) fn domain(table: &Table) -> Result<Domain, SettingFault>
    ensures said { IsSaid (table_view table.now) Key.Domain number result }
    ensures range { IfOk result IsDomain }
{
    match lookup(table, Key::Domain.name()) {
        Some(value) => domain_of(value).ok_or(SettingFault::Bad(Key::Domain)),
        None => Ok(Domain::DEFAULT),
    }
}

/// A capacity.
pub(crate) fn capacity_of(value: &Value) -> Option<Capacity>
    ensures value { result ≡ whole_in least_capacity greatest_capacity (view value.now) }
    ensures range { IfSome result IsCapacity }
{
    Capacity::of(whole_of(value, Capacity::LEAST, Capacity::GREATEST)?)
}

/// The setting `capacity`, which is required.
#[tactic(auto, unfolding(crate::specs::Rules::setting_of))]
pub(crate) fn capacity(table: &Table) -> Result<Capacity, SettingFault>
    ensures said { IsSaid (table_view table.now) Key.Capacity number result }
    ensures range { IfOk result IsCapacity }
{
    match lookup(table, Key::Capacity.name()) {
        Some(value) => capacity_of(value).ok_or(SettingFault::Bad(Key::Capacity)),
        None => Err(SettingFault::Bad(Key::Capacity)),
    }
}

// The duration of a grant.
fn duration_of(value: &Value) -> Option<GrantSeconds>
    ensures value { result ≡ whole_in least_duration greatest_duration (view value.now) }
    ensures range { IfSome result IsDuration }
{
    GrantSeconds::of(whole_of(
        value,
        GrantSeconds::LEAST.into(),
        GrantSeconds::GREATEST.into(),
    )?)
}

/// A setting that is the duration of a grant, and `otherwise` where its key is not there.
#[tactic(auto, unfolding(crate::specs::Rules::setting_of))]
pub(crate) fn duration_or(
    table: &Table,
    key: Key,
    otherwise: GrantSeconds,
) -> Result<GrantSeconds, SettingFault>
    requires { rule_of key ≡ optional (whole least_duration greatest_duration) (number otherwise) }
    ensures said { IsSaid (table_view table.now) key number result }
    ensures range { IfOk result IsDuration }
{
    match lookup(table, key.name()) {
        Some(value) => duration_of(value).ok_or(SettingFault::Bad(key)),
        None => Ok(otherwise),
    }
}

// The seconds of a timescale at moment zero.
fn epoch_of(value: &Value) -> Option<Epoch>
    ensures value { result ≡ whole_in 0 greatest_epoch (view value.now) }
    ensures range { IfSome result IsEpoch }
{
    Epoch::of(whole_of(value, 0, Epoch::GREATEST)?)
}

/// The setting `epoch`.
#[tactic(auto, unfolding(crate::specs::Rules::setting_of))]
pub(crate) fn epoch(table: &Table) -> Result<Epoch, SettingFault>
    ensures said { IsSaid (table_view table.now) Key.Epoch number result }
    ensures range { IfOk result IsEpoch }
{
    match lookup(table, Key::Epoch.name()) {
        Some(value) => epoch_of(value).ok_or(SettingFault::Bad(Key::Epoch)),
        None => Ok(Epoch::DEFAULT),
    }
}

// A number of lanes.
fn senders_of(value: &Value) -> Option<Senders>
    ensures value { result ≡ whole_in 0 greatest_senders (view value.now) }
    ensures range { IfSome result IsSenders }
{
    Senders::of(whole_of(value, 0, Senders::GREATEST.into())?)
}

/// The setting `senders`.
#[tactic(auto, unfolding(crate::specs::Rules::setting_of))]
pub(crate) fn senders(table: &Table) -> Result<Senders, SettingFault>
    ensures said { IsSaid (table_view table.now) Key.Senders number result }
    ensures range { IfOk result IsSenders }
{
    match lookup(table, Key::Senders.name()) {
        Some(value) => senders_of(value).ok_or(SettingFault::Bad(Key::Senders)),
        None => Ok(Senders::DEFAULT),
    }
}

// A wait to restore.
fn wait_of(value: &Value) -> Option<WaitToRestore>
    ensures value { result ≡ whole_in 0 greatest_wait (view value.now) }
    ensures range { IfSome result IsWait }
{
    WaitToRestore::of(whole_of(value, 0, WaitToRestore::GREATEST.into())?)
}

/// The setting `wait_to_restore`.
#[tactic(auto, unfolding(crate::specs::Rules::setting_of))]
pub(crate) fn wait(table: &Table) -> Result<WaitToRestore, SettingFault>
    ensures said { IsSaid (table_view table.now) Key.WaitToRestore number result }
    ensures range { IfOk result IsWait }
{
    match lookup(table, Key::WaitToRestore.name()) {
        Some(value) => wait_of(value).ok_or(SettingFault::Bad(Key::WaitToRestore)),
        None => Ok(WaitToRestore::DEFAULT),
    }
}

// A receipt timeout.
fn timeout_of(value: &Value) -> Option<ReceiptTimeout>
    ensures value { result ≡ whole_in least_timeout greatest_timeout (view value.now) }
    ensures range { IfSome result IsTimeout }
{
    ReceiptTimeout::of(whole_of(
        value,
        ReceiptTimeout::LEAST.into(),
        ReceiptTimeout::GREATEST.into(),
    )?)
}

/// A setting that is a receipt timeout, and the default where its key is not there.
#[tactic(auto, unfolding(crate::specs::Rules::setting_of))]
pub(crate) fn timeout(table: &Table, key: Key) -> Result<ReceiptTimeout, SettingFault>
    requires { rule_of key ≡ optional (whole least_timeout greatest_timeout) (number 3) }
    ensures said { IsSaid (table_view table.now) key number result }
    ensures range { IfOk result IsTimeout }
{
    match lookup(table, key.name()) {
        Some(value) => timeout_of(value).ok_or(SettingFault::Bad(key)),
        None => Ok(ReceiptTimeout::DEFAULT),
    }
}

// A logarithm in the range of Announce.
fn announce_log_of(value: &Value) -> Option<AnnounceLog>
    ensures value { result ≡ signed_in (least_log Announce) (pos 4) (view value.now) }
    ensures range { IfSome result (IsLogOf Announce) }
{
    AnnounceLog::of(log_of(value, Kind::Announce)?.value())
}

/// The setting `log_announce`.
#[tactic(auto, unfolding(crate::specs::Rules::setting_of))]
pub(crate) fn announce_log(table: &Table) -> Result<AnnounceLog, SettingFault>
    ensures said { IsSaid (table_view table.now) Key.LogAnnounce logarithm result }
    ensures range { IfOk result (IsLogOf Announce) }
{
    let found = match lookup(table, Key::LogAnnounce.name()) {
        Some(value) => announce_log_of(value),
        None => AnnounceLog::of(1),
    };
    found.ok_or(SettingFault::Bad(Key::LogAnnounce))
}
