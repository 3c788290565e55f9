//! What a document's table says of one setting.
ghost use Rattle.std.specs.Prelude.{◌≡◌, ◌≤◌, ◌<◌, ◌^◌, Some, None, option_map, option_copied, option_and_then, IfOk, IfErr, IfSome, IfNone, MatchOption, pos, ◌≤ℤ◌};
ghost use Rattle.toml.specs.{Data.{get_member}, View.{view, table_view}};
ghost use Rattle.ptu_units.specs.Log.{IsLogOf, least_log};
ghost use Rattle.ptu_config.specs.Key.{name_of};
ghost use Rattle.ptu_config.specs.Forms.{address_in, identity_in, whole_in, signed_in};
ghost use Rattle.ptu_config.specs.Rules.{rule_of, required, optional, address, identity, whole, log, boolean, number, logarithm, truth, nothing};
ghost use Rattle.ptu_config.specs.{Documents.{IsSaid}, Entries.{logarithm_or_nothing}};

use crate::fault::SettingFault;
use crate::key::Key;
use ptu_units::{Kind, Log};
use toml::{Table, Value};

/// The clockClass of a grandmaster whose settings name none.
const CLASS: u8 = 84;

// The value of a key, where the key is there.
pub(crate) fn lookup<'a>(table: &'a Table, name: &str) -> Option<&'a Value>
    ensures { option_map (λ value. view value.now) result
        ≡ get_member name.now (table_view table.now) }
{
    table.get(name)
}

// A text that is an IPv4 address.
pub(crate) fn address_of(value: &Value) -> Option<u32>
    ensures { result ≡ address_in (view value.now) }
{
    match value.as_str() {
        Some(text) => ptu_lines::ip(text.as_bytes()),
        None => None,
    }
}

// A text that is a clock identity.
pub(crate) fn identity_of(value: &Value) -> Option<u64>
    ensures { result ≡ identity_in (view value.now) }
{
    match value.as_str() {
        Some(text) => ptu_lines::clock(text.as_bytes()),
        None => None,
    }
}

// A whole number from `least` to `greatest`.
pub(crate) fn whole_of(value: &Value, least: u64, greatest: u64) -> Option<u64>
    ensures value { result ≡ whole_in least greatest (view value.now) }
    ensures range { IfSome result (λ n. (least ≤ n) × (n ≤ greatest)) }
{
    let number = value.as_integer()?;
    if number < 0 {
        return None;
    }
    let number = number as u64;
    if least <= number && number <= greatest {
        Some(number)
    } else {
        None
    }
}

// A whole number of 32 bits from `least` to `greatest`.
fn count_of(value: &Value, least: u32, greatest: u32) -> Option<u32>
    ensures value { result ≡ whole_in least greatest (view value.now) }
    ensures range { IfSome result (λ n. (least ≤ n) × (n ≤ greatest)) }
{
    u32::try_from(whole_of(value, least.into(), greatest.into())?).ok()
}

// A whole number from 0 to 255.
pub(crate) fn octet_of(value: &Value) -> Option<u8>
    ensures { result ≡ whole_in 0 255 (view value.now) }
{
    u8::try_from(whole_of(value, 0, u8::MAX.into())?).ok()
}

// A logarithm in the range of the kind.
pub(crate) fn log_of(value: &Value, kind: Kind) -> Option<Log>
    ensures value { result ≡ signed_in (least_log kind) (pos 4) (view value.now) }
    ensures range { IfSome result (IsLogOf kind) }
{
    let number = value.as_integer()?;
    if -128 <= number && number <= 127 {
        Log::of(kind, number as i8)
    } else {
        None
    }
}

/// A setting that is an IPv4 address and required.
#[tactic(auto, unfolding(crate::specs::Rules::setting_of))]
pub(crate) fn address(table: &Table, key: Key) -> Result<u32, SettingFault>
    requires { rule_of key ≡ required address }
    ensures { IsSaid (table_view table.now) key number result }
{
    match lookup(table, key.name()) {
        Some(value) => address_of(value).ok_or(SettingFault::Bad(key)),
        None => Err(SettingFault::Bad(key)),
    }
}

/// A setting that is a clock identity and required.
#[tactic(auto, unfolding(crate::specs::Rules::setting_of))]
pub(crate) fn identity(table: &Table, key: Key) -> Result<u64, SettingFault>
    requires { rule_of key ≡ required identity }
    ensures { IsSaid (table_view table.now) key number result }
{
    match lookup(table, key.name()) {
        Some(value) => identity_of(value).ok_or(SettingFault::Bad(key)),
        None => Err(SettingFault::Bad(key)),
    }
}

/// A setting that is a whole number from `least` to `greatest` and required.
#[tactic(auto, unfolding(crate::specs::Rules::setting_of))]
pub(crate) fn whole(table: &Table, key: Key, least: u32, greatest: u32) -> Result<u32, SettingFault>
    requires { rule_of key ≡ required (whole least greatest) }
    ensures said { IsSaid (table_view table.now) key number result }
    ensures range { IfOk result (λ n. (least ≤ n) × (n ≤ greatest)) }
{
    match lookup(table, key.name()) {
        Some(value) => count_of(value, least, greatest).ok_or(SettingFault::Bad(key)),
        None => Err(SettingFault::Bad(key)),
    }
}

/// A setting that is a whole number from `least` to `greatest`, and `otherwise` where its key is
/// not there.
#[tactic(auto, unfolding(crate::specs::Rules::setting_of))]
pub(crate) fn whole_or(
    table: &Table,
    key: Key,
    least: u32,
    greatest: u32,
    otherwise: u32,
) -> Result<u32, SettingFault>
    requires rule { rule_of key ≡ optional (whole least greatest) (number otherwise) }
    requires low { least ≤ otherwise }
    requires high { otherwise ≤ greatest }
    ensures said { IsSaid (table_view table.now) key number result }
    ensures range { IfOk result (λ n. (least ≤ n) × (n ≤ greatest)) }
{
    match lookup(table, key.name()) {
        Some(value) => count_of(value, least, greatest).ok_or(SettingFault::Bad(key)),
        None => Ok(otherwise),
    }
}

/// The setting `class`, 84 where its key is not there.
#[tactic(auto, unfolding(crate::specs::Rules::setting_of))]
pub(crate) fn class(table: &Table) -> Result<u8, SettingFault>
    ensures { IsSaid (table_view table.now) Key.Class number result }
{
    match lookup(table, Key::Class.name()) {
        Some(value) => octet_of(value).ok_or(SettingFault::Bad(Key::Class)),
        None => Ok(CLASS),
    }
}

/// A setting that is a truth value, and `otherwise` where its key is not there.
#[tactic(auto, unfolding(crate::specs::Rules::setting_of))]
pub(crate) fn truth_or(table: &Table, key: Key, otherwise: bool) -> Result<bool, SettingFault>
    requires { rule_of key ≡ optional boolean (truth otherwise) }
    ensures { IsSaid (table_view table.now) key truth result }
{
    match lookup(table, key.name()) {
        Some(value) => value.as_bool().ok_or(SettingFault::Bad(key)),
        None => Ok(otherwise),
    }
}

/// A setting that is a logarithm in the range of the kind, or nothing where its key is not there.
#[tactic(auto, unfolding(crate::specs::Rules::setting_of))]
pub(crate) fn log(table: &Table, key: Key, kind: Kind) -> Result<Option<Log>, SettingFault>
    requires { rule_of key ≡ optional (log (least_log kind) (pos 4)) nothing }
    ensures said { IsSaid (table_view table.now) key logarithm_or_nothing result }
    ensures range { IfOk result (λ found. IfSome found (IsLogOf kind)) }
{
    match lookup(table, key.name()) {
        Some(value) => match log_of(value, kind) {
            Some(log) => Ok(Some(log)),
            None => Err(SettingFault::Bad(key)),
        },
        None => Ok(None),
    }
}

/// A setting that is a logarithm in the range of the kind, and `otherwise` where its key is not
/// there.
#[tactic(auto, unfolding(crate::specs::Rules::setting_of))]
pub(crate) fn log_or(
    table: &Table,
    key: Key,
    kind: Kind,
    otherwise: i8,
) -> Result<Log, SettingFault>
    requires rule { rule_of key ≡ optional (log (least_log kind) (pos 4)) (logarithm otherwise) }
    requires range { IsLogOf kind otherwise }
    ensures said { IsSaid (table_view table.now) key logarithm result }
    ensures range { IfOk result (IsLogOf kind) }
{
    let found = match lookup(table, key.name()) {
        Some(value) => log_of(value, kind),
        None => Log::of(kind, otherwise),
    };
    found.ok_or(SettingFault::Bad(key))
}
