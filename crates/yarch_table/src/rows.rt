//! The rows of a table, one after the other.

ghost use Rattle.std.specs.Prelude.{◌≡◌, length};
ghost use Rattle.std.specs.Iterator.{at_most};
ghost use Rattle.std.specs.Map.Iter.{TakesFirst, deref};
ghost use Rattle.yarch_table.specs.Index.{is_before_end, rows_left, AreRisingKeys};

use crate::packed_key::PackedKey;
use crate::table::Stored;
use arch_types::row::Row;
use block_map::entries::Entries;
use std::marker::Model;

/// Which rows are seen.
#[derive(Clone, Copy, Debug)]
pub(crate) struct Window {
    /// Those with a position below this.
    pub front: u64,
    /// Those with a time below this, in milliseconds, or of any time.
    pub end: Option<i64>,
}

/// The rows that are left, in the order of their keys.
#[derive(Drop)]
pub struct TableRows<'a> {
    stored: &'a [Stored],
    entries: Entries<'a, PackedKey, u32>,
    window: Window,
}

impl<'a> Model for TableRows<'a> {
    ghost use Rattle.std.specs.Prelude.{List};
    ghost use Rattle.arch_types.specs.declared.row.Row.{Row};
    ghost use Rattle.yarch_table.specs.Index.{rows_left, AreRisingKeys};

    ghost Value = { List Row };

    ghost view = { λ t. rows_left t.stored.now t.window.front t.window.end t.entries };

    ghost invariant = { λ t. AreRisingKeys t.stored.now t.entries };
}

impl<'a> TableRows<'a> {
    pub(crate) fn new(
        stored: &'a [Stored],
        entries: Entries<'a, PackedKey, u32>,
        window: Window,
    ) -> Self
        requires { AreRisingKeys stored.now entries }
        ensures { result ≡ rows_left stored.now window.front window.end entries.entry }
    {
        TableRows {
            stored,
            entries,
            window,
        }
    }
}

impl<'a> Iterator for TableRows<'a> {
    type Item = &'a Row;

    ghost next_gives = { TakesFirst deref };

    ghost remaining = { λ s. at_most (length s) };

    fn next(&mut self) -> Option<&'a Row> {
        next_seen(self.stored, &mut self.entries, &self.window)
    }
}

/// Whether the time of an entry is below the end.
fn is_within(entry: &(PackedKey, u32), window: &Window) -> bool
    ensures { result ≡ is_before_end window.now.end entry.now.0.time }
{
    match window.end {
        None => true,
        Some(end) => {
            let key = &entry.0;
            key.is_before(end)
        }
    }
}

/// The next row that is seen. Past the end of the window there is none, since the keys of the entries rise.
fn next_seen<'a>(
    stored: &'a [Stored],
    entries: &mut Entries<'a, PackedKey, u32>,
    window: &Window,
) -> Option<&'a Row>
    requires { AreRisingKeys stored.now entries.old }
    ensures rising { AreRisingKeys stored.now entries.new }
    ensures taken { TakesFirst deref (rows_left stored.now window.now.front window.now.end entries.old) result
        (rows_left stored.now window.now.front window.now.end entries.new) }
{
    while let Some(entry) = entries.next() {
        if !is_within(entry, window) {
            return None;
        }
        let found = &stored[entry.1 as usize];
        if found.position < window.front {
            return Some(&found.row);
        }
    }
    None
}
