//! Laws of the definitions, carried by functions that do nothing.

ghost use Rattle.std.specs.Prelude.{◌≡◌};
ghost use Rattle.arch_types.specs.Order.{key_cmp};
ghost use Rattle.arch_types.specs.Laws.{DumpIsOne, TableIsSorted, TableHasItsRows, IngestKeepsHistory, IngestOnlyAdds, IngestKeepsEachKey};

use crate::key::Key;
use std::cmp::Ordering;

/// Keys are ordered by time, and then by number.
pub fn keys_are_ordered(a: &Key, b: &Key) -> Ordering
    ensures { result ≡ key_cmp a.now b.now }
{
    a.cmp(b)
}

/// A dump has one list of packets and one rest.
pub fn dump_is_one()
    ensures { DumpIsOne }
{}

/// A table at a front is sorted by key.
pub fn table_is_sorted()
    ensures { TableIsSorted }
{}

/// A table at a front has the rows of the history's prefix that are in it, each once and no other.
pub fn table_has_its_rows()
    ensures { TableHasItsRows }
{}

/// An ingest leaves a history.
pub fn ingest_keeps_history()
    ensures { IngestKeepsHistory }
{}

/// An ingest only adds rows at the end.
pub fn ingest_only_adds()
    ensures { IngestOnlyAdds }
{}

/// After an ingest the table and key of each row are in the history.
pub fn ingest_keeps_each_key()
    ensures { IngestKeepsEachKey }
{}
