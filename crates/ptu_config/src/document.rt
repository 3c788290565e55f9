//! The table that octets are.
ghost use Rattle.std.specs.Prelude.{◌≡◌, ◌⊎◌, Some, None, IfOk, IfErr, option_map};
ghost use Rattle.toml.specs.View.{table_view};
ghost use Rattle.ptu_config.specs.Forms.{has_only};
ghost use Rattle.ptu_config.specs.Documents.{document_of, first_bad, is_name_of, refusal_of, Refuses};
ghost use Rattle.ptu_config.specs.declared.fault.SettingFault.TheVariants.{OutOfMemory as NoMemory};

use crate::fault::SettingFault;
use crate::key::Key;
use std::alloc::Global;
use toml::Table;

/// The most octets of settings.
pub(crate) const LONGEST_SETTINGS: usize = 65536;

// The name is that of one of these settings.
fn is_name(keys: &[Key], name: &str) -> bool
    ensures { result ≡ is_name_of keys.now name.now }
{
    keys.iter().any(|key| name == key.name())
}

// The table has these settings and no others.
fn has_only_keys(table: &Table, keys: &[Key]) -> bool
    ensures { result ≡ has_only (is_name_of keys.now) (table_view table.now) }
{
    table.keys().all(|name| is_name(keys, name.as_str()))
}

// The table that the octets are.
fn table_of(alloc: Global, octets: &[u8]) -> Result<Table, SettingFault>
    ensures ok { IfOk result (λ table. document_of octets.now ≡ Some (table_view table)) }
    ensures refused { IfErr result (λ fault. (fault ≡ NoMemory) ⊎
        ((fault ≡ SettingFault.Text) × (document_of octets.now ≡ None))) }
{
    let Ok(text) = std::str::from_utf8(octets) else {
        return Err(SettingFault::Text);
    };
    match toml::table_from_str(alloc, text) {
        Ok(table) => Ok(table),
        Err(error) if error.is_memory() => Err(SettingFault::OutOfMemory),
        Err(_) => Err(SettingFault::Text),
    }
}

/// The table that octets are, where they are a document with these settings and no others.
pub(crate) fn document(alloc: Global, octets: &[u8], keys: &[Key]) -> Result<Table, SettingFault>
    ensures table { IfOk result (λ table. document_of octets.now ≡ Some (table_view table)) }
    // Only a bad setting is left as a cause to refuse them.
    ensures refusal { IfOk result (λ table. refusal_of keys.now octets.now ≡
        option_map SettingFault.Bad (first_bad keys.now (table_view table))) }
    ensures refused { IfErr result (Refuses keys.now octets.now) }
{
    if octets.len() > LONGEST_SETTINGS {
        return Err(SettingFault::Size);
    }
    let table = table_of(alloc, octets)?;
    if has_only_keys(&table, keys) {
        Ok(table)
    } else {
        Err(SettingFault::Unknown)
    }
}
