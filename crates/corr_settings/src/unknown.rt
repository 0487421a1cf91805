//! Keys that are no settings.

ghost use Rattle.std.specs.Prelude.{◌≡◌, ◌≤◌, length, option_map, bytes_eq};
ghost use Rattle.std.specs.List.{list_any};
ghost use Rattle.toml.specs.View.{table_view};
ghost use Rattle.corr_settings.specs.Table.{key_name};
ghost use Rattle.corr_settings.specs.Values.{first_unknown, is_known};
ghost use Rattle.corr_settings.specs.Read.{front_64};

use crate::key::{Row, TABLE};
use toml::Table;

/// The least key by its bytes that is no setting.
pub fn first_unknown(table: &Table) -> Option<&str>
    ensures value { option_map (λ s. s.now) result ≡ first_unknown (table_view table.now) }
{
    for name in table.keys() {
        if !is_known(name.as_str()) {
            return Some(name.as_str());
        }
    }
    None
}

// Whether the key is a setting.
fn is_known(name: &str) -> bool
    ensures { result ≡ is_known name.now }
{
    is_among(name, &TABLE)
}

// Whether the key is one of some settings.
fn is_among(name: &str, rows: &[Row]) -> bool
    ensures { result ≡ list_any (λ r. bytes_eq name.now (key_name r.0)) rows.now }
{
    for row in rows {
        if name == row.0.name() {
            return true;
        }
    }
    false
}

/// Its first 64 bytes, cut at a character's edge.
pub fn front_64(name: &str) -> &str
    ensures value { result.now ≡ front_64 name.now }
    ensures short { length result.now ≤ 64 }
{
    if name.len() <= 64 {
        return name;
    }
    let edge = name.floor_char_boundary(64);
    &name[..edge]
}
