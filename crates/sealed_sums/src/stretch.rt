//! Neighbouring rows that are told at once.

ghost use Rattle.std.specs.Prelude.{◌≡◌, ℕ, ◌+◌, ◌<◌, ◌≤◌, ◌^◌, List, [], ◌∷◌, ◌++◌, length, take, IfSome};
ghost use Rattle.arch_types.specs.declared.row.Row.{Row as ARow};
ghost use Rattle.sealed_sums.specs.Stretch.{IsStretchOf};

use arch_types::row::Row;
use arch_types::spans::Span;
use archive_history::history::interval_of_row;
use histogram::one_span::{grown, span_of_time};
use intervals::{Exponent, Interval};
use partitions::partition::{Partition, partition_of};

/// Rows of one table, interval and partition whose times make one record.
#[derive(Clone, Copy, Debug)]
pub(crate) struct Stretch {
    /// How many rows.
    pub(crate) len: usize,
    pub(crate) table: u8,
    pub(crate) interval: Interval,
    pub(crate) partition: Partition,
    /// The record of their times.
    pub(crate) span: Span,
    /// All octets of their packets.
    pub(crate) octets: u64,
}

impl Stretch {
    /// A row alone.
    fn of_row(row: &Row, exponent: Exponent) -> Self
        ensures { IsStretchOf exponent result (row.now ∷ []) }
    {
        Stretch {
            len: 1,
            table: row.table,
            interval: interval_of_row(row, exponent),
            partition: partition_of(row.key.time, row.pname),
            span: span_of_time(row.key.time),
            octets: row.packet.len() as u64,
        }
    }

    /// The rows with one more, where that goes with them.
    fn with(&self, row: &Row, exponent: Exponent) -> Option<Self>
        requires len { self.now.len + 1 < 2 ^ 64 }
        requires count { self.now.span.count + 1 < 2 ^ 64 }
        requires octets { self.now.octets + 2 ^ 32 ≤ 2 ^ 64 }
        ensures { IfSome result (λ longer. (rows : List ARow) → IsStretchOf exponent self.now rows →
            IsStretchOf exponent longer (rows ++ row.now ∷ [])) }
    {
        if row.table != self.table
            || interval_of_row(row, exponent) != self.interval
            || partition_of(row.key.time, row.pname) != self.partition
        {
            return None;
        }
        let span = grown(self.span, row.key.time)?;
        Some(Stretch {
            len: self.len + 1,
            span,
            octets: self.octets + row.packet.len() as u64,
            ..*self
        })
    }
}

/// The rows at the front that go together.
pub(crate) fn first_stretch(rows: &[Row], exponent: Exponent) -> Stretch
    requires some { 0 < length rows.now }
    requires few { length rows.now < 2 ^ 32 }
    ensures within { result.len ≤ length rows.now }
    ensures stretch { IsStretchOf exponent result (take result.len rows.now) }
{
    let mut stretch = Stretch::of_row(&rows[0], exponent);
    for i in 1..rows.len() {
        match stretch.with(&rows[i], exponent) {
            Some(longer) => stretch = longer,
            None => return stretch,
        }
    }
    stretch
}
