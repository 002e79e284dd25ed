//! The tables of a tree file.
ghost use Rattle.std.specs.Prelude.{◌≡◌, option_map, string_bytes};
ghost use Rattle.std.specs.List.{list_all};
ghost use Rattle.std.specs.BTreeMap.{keys};
ghost use Rattle.otp_file.specs.Tables.{has_only, is_child_key, is_flag_key};
ghost use Rattle.toml.specs.Data.{get_member};
ghost use Rattle.toml.specs.View.{table_view, view};

use crate::fault::{ChildKey, FlagKey};
use toml::{Table, Value};

/// The value at a key.
pub(crate) fn value_at<'a>(table: &'a Table, key: &str) -> Option<&'a Value>
    ensures { option_map (λ v. view v.now) result ≡ get_member key.now (table_view table.now) }
{
    table.get(key)
}

/// Whether the table has no key but those of a supervisor.
pub(crate) fn has_only_flag_keys(table: &Table) -> bool
    ensures { result ≡ has_only is_flag_key (table_view table.now) }
{
    are_flag_keys(table)
}

/// Whether each key of the map is one of a supervisor.
fn are_flag_keys(table: &Table) -> bool
    ensures { result ≡ list_all (λ key. is_flag_key (string_bytes key)) (keys table.now) }
{
    table.keys().all(|key| is_flag_key(key.as_str()))
}

/// Whether the table has no key but those of a child.
pub(crate) fn has_only_child_keys(table: &Table) -> bool
    ensures { result ≡ has_only is_child_key (table_view table.now) }
{
    are_child_keys(table)
}

/// Whether each key of the map is one of a child.
fn are_child_keys(table: &Table) -> bool
    ensures { result ≡ list_all (λ key. is_child_key (string_bytes key)) (keys table.now) }
{
    table.keys().all(|key| is_child_key(key.as_str()))
}

/// Whether this is a key of a supervisor.
fn is_flag_key(key: &str) -> bool
    ensures { result ≡ is_flag_key key.now }
{
    key == FlagKey::Strategy.name()
        || key == FlagKey::Intensity.name()
        || key == FlagKey::Period.name()
        || key == FlagKey::AutoShutdown.name()
        || key == FlagKey::Child.name()
}

/// Whether this is a key of a child.
fn is_child_key(key: &str) -> bool
    ensures { result ≡ is_child_key key.now }
{
    key == ChildKey::Id.name()
        || key == ChildKey::Start.name()
        || key == ChildKey::Restart.name()
        || key == ChildKey::Significant.name()
        || key == ChildKey::Shutdown.name()
        || key == ChildKey::Kind.name()
        || key == ChildKey::Modules.name()
        || key == ChildKey::Tree.name()
}
