//! The rows that stand in some partitions.

ghost use Rattle.std.specs.Prelude.{◌≡◌, filter};
ghost use Rattle.std.proofs.lemmas.Map.Keys.{IsStrictlySortedBy-prop};
ghost use Rattle.partitions.specs.Partition.{partition_cmp};
ghost use Rattle.partitions.specs.Partitions.{AreRising};
ghost use Rattle.partitions.specs.Rows.{is_of_parts};

use arch_types::row::{Row, Rows};
use partitions::partition::Partition;
use partitions::rows::is_of_parts;

/// Partitions that rise.
#[derive(Drop)]
struct RisingParts<'a> {
    parts: &'a [Partition],
    ghost rising: { AreRising parts.now } by { IsStrictlySortedBy-prop partition_cmp parts.now },
}

impl<'a> RisingParts<'a> {
    /// Whether a row stands in one of them.
    fn have(&self, row: &Row) -> bool
        ensures { result ≡ is_of_parts self.now.parts.now row.now }
    {
        is_of_parts(self.parts, row)
    }
}

/// Takes out the rows that stand in none of some partitions.
fn keep_rows_of(rows: &mut Vec<Row>, parts: &RisingParts<'_>)
    ensures { rows.new.items ≡ filter (is_of_parts parts.now.parts.now) rows.old.items }
{
    rows.retain(|row| parts.have(row));
}

/// The rows that stand in one of some partitions, which rise.
pub(crate) fn keep_parts(rows: Rows, parts: &[Partition]) -> Rows
    requires { AreRising parts.now }
    ensures { result ≡ filter (is_of_parts parts.now) rows }
{
    let mut kept = rows.into_vec();
    keep_rows_of(&mut kept, &RisingParts { parts });
    Rows::from_vec(kept)
}
