//! The rows of a table with their positions, one after the other.

ghost use Rattle.std.specs.Prelude.{◌≡◌, length};
ghost use Rattle.std.specs.Iterator.{at_most};
ghost use Rattle.std.specs.List.{AllByRecursion};
ghost use Rattle.std.specs.Map.Iter.{TakesFirst, deref};
ghost use Rattle.yarch_table.specs.Index.{stored_left, IsEntryOf};

use crate::packed_key::PackedKey;
use crate::table::Stored;
use block_map::entries::Entries;
use std::marker::Model;

/// The rows that are left, each with its position, in the order of their keys.
#[derive(Drop)]
pub struct StoredRows<'a> {
    stored: &'a [Stored],
    entries: Entries<'a, PackedKey, u32>,
}

impl<'a> Model for StoredRows<'a> {
    ghost use Rattle.std.specs.Prelude.{List};
    ghost use Rattle.std.specs.List.{AllByRecursion};
    ghost use Rattle.yarch_table.specs.declared.table.Stored.{Stored};
    ghost use Rattle.yarch_table.specs.Index.{stored_left, IsEntryOf};

    ghost Value = { List Stored };

    ghost view = { λ t. stored_left t.stored.now t.entries };

    ghost invariant = { λ t. AllByRecursion (IsEntryOf t.stored.now) t.entries };
}

impl<'a> StoredRows<'a> {
    pub(crate) fn new(stored: &'a [Stored], entries: Entries<'a, PackedKey, u32>) -> Self
        requires { AllByRecursion (IsEntryOf stored.now) entries }
        ensures { result ≡ stored_left stored.now entries.entry }
    {
        StoredRows { stored, entries }
    }
}

impl<'a> Iterator for StoredRows<'a> {
    type Item = &'a Stored;

    ghost next_gives = { TakesFirst deref };

    ghost remaining = { λ s. at_most (length s) };

    fn next(&mut self) -> Option<&'a Stored> {
        next_stored(self.stored, &mut self.entries)
    }
}

/// The row that the next entry names, with its position.
fn next_stored<'a>(
    stored: &'a [Stored],
    entries: &mut Entries<'a, PackedKey, u32>,
) -> Option<&'a Stored>
    requires { AllByRecursion (IsEntryOf stored.now) entries.old }
    ensures named { AllByRecursion (IsEntryOf stored.now) entries.new }
    ensures taken { TakesFirst deref (stored_left stored.now entries.old) result (stored_left stored.now entries.new) }
{
    let entry = entries.next()?;
    let found = &stored[entry.1 as usize];
    Some(found)
}
