//! Rows that are found by an identifier.

ghost use Rattle.std.specs.Prelude.{◌≡◌, ℕ, IfOk};
ghost use Rattle.cim_profile.specs.Table.{rows_at};

use cim_words::{Id, NoMemory};
use std::marker::Model;

/// A value under the identifier by which it is found.
#[derive(Clone, Copy, Drop, PartialEq, Eq)]
pub(crate) struct Row<V: Copy> {
    pub(crate) key: Id,
    pub(crate) value: V,
}

/// Rows in ascending order of their keys. Rows with one key keep their order.
#[derive(Drop)]
pub(crate) struct Table<V: Copy> {
    rows: Vec<Row<V>>,
}

impl<V: Copy> Model for Table<V> {
    ghost use Rattle.std.specs.Prelude.{List};
    ghost use Rattle.std.specs.List.Sorted.{IsNonDecreasingBy};
    ghost use Rattle.cim_profile.specs.declared.table.Row.{Row};

    ghost Value = { List (Row V) };

    ghost view = { λ table. table.rows.items };

    ghost invariant = { λ table. IsNonDecreasingBy (λ (row : Row V). row.key.number) table.rows.items };
}

impl<V: Copy> Table<V> {
    /// The table of these rows.
    pub(crate) fn of(mut rows: Vec<Row<V>>) -> Result<Table<V>, NoMemory>
        ensures { IfOk result (λ table. (key : ℕ) → rows_at table key ≡ rows_at rows.items key) }
    {
        rows.sort_by_key(|row| row.key.number)?;
        Ok(Table { rows })
    }

    /// All rows.
    pub(crate) fn rows(&self) -> &[Row<V>]
        ensures { result.now ≡ self.now }
    {
        &self.rows
    }

    /// The rows with a key.
    pub(crate) fn at(&self, key: Id) -> &[Row<V>]
        ensures { result.now ≡ rows_at self.now key.number }
    {
        let rows = self.rows.as_slice();
        let start = rows.partition_point(|row| row.key.number < key.number);
        let rest = &rows[start..];
        let end = rest.partition_point(|row| row.key.number <= key.number);
        &rest[..end]
    }
}
