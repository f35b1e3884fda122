//! Rows in the order of their keys, no key twice.

ghost use Rattle.std.specs.Prelude.{◌≡◌, IfOk};
ghost use Rattle.std.specs.List.{Any, Contains, dedup};
ghost use Rattle.arch_types.specs.declared.row.Row.{Row as ARow};
ghost use Rattle.joined_rows.specs.Rising.{HaveRisingKeys, has_key_of};

use arch_types::row::{Row, Rows};
use partitions::rows::merged_by_key;
use std::alloc::AllocError;

/// Whether two rows have one key.
fn is_same_key(a: &Row, b: &Row) -> bool
    ensures { result ≡ has_key_of a.now b.now }
{
    a.key.cmp(&b.key).is_eq()
}

/// Takes out of rows each whose key is that of the row before.
fn drop_repeated_keys(rows: &mut Vec<Row>)
    ensures { rows.new.items ≡ dedup has_key_of rows.old.items }
{
    rows.dedup_by(|row, kept| is_same_key(row, kept));
}

/// Rows in the order of their keys, of those with one key the first alone: over a disk that doesn't tell what it holds
/// two sources may give one key. The one error is want of memory.
pub fn rising_by_key(rows: Vec<Row>) -> Result<Rows, AllocError>
    ensures rising { IfOk result HaveRisingKeys }
    ensures no_others { IfOk result (λ those. (row : ARow) → Contains those row → Contains rows.items row) }
    ensures each_key { IfOk result (λ those. (row : ARow) → Contains rows.items row →
        Any (λ kept. kept.key ≡ row.key) those) }
{
    let mut rising = merged_by_key(rows)?.into_vec();
    drop_repeated_keys(&mut rising);
    Ok(Rows::from_vec(rising))
}
