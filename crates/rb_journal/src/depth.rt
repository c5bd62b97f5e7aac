//! How deep values of TOML nest.
ghost use Rattle.std.specs.Prelude.{◌≡◌, nat_le};
ghost use Rattle.toml.specs.Data.{depth, items_depth, members_depth};
ghost use Rattle.toml.specs.View.{view, array_view, table_view};

use toml::Table;
use toml::value::{Array, Value};

/// Whether a value nests at most so many levels.
#[cycle(depth)]
fn value_fits(value: &Value, levels: usize) -> bool
    ensures { result ≡ nat_le (depth (view value.now)) levels }
{
    match value {
        Value::Array(items) => levels > 0 && array_fits(items, levels - 1),
        Value::Table(table) => levels > 0 && table_fits(table, levels - 1),
        _ => true,
    }
}

#[cycle(depth)]
fn array_fits(array: &Array, levels: usize) -> bool
    ensures { result ≡ nat_le (items_depth (array_view array.now)) levels }
{
    'items: for item in array {
        if !value_fits(item, levels) {
            return false;
        }
    }
    true
}

/// Whether the values of a table nest at most so many levels.
#[cycle(depth)]
pub(crate) fn table_fits(table: &Table, levels: usize) -> bool
    ensures { result ≡ nat_le (members_depth (table_view table.now)) levels }
{
    'members: for (_key, member) in table.iter() {
        if !value_fits(member, levels) {
            return false;
        }
    }
    true
}
