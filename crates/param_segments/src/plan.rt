//! What a retrieval reads.

use crate::set::SegSet;
use arch_types::row::Rows;
use intervals::{Exponent, Interval};
use item_list::Items;
use mdb_model::Mdb;
use std::alloc::Global;
use std::sync::Arc;

/// What a plan has of one interval.
#[derive(Drop)]
pub enum Part {
    /// The set of the interval's rows, which isn't late.
    Set {
        interval: Interval,
        set: Arc<SegSet, Global>,
    },
    /// The interval's rows of table `tm` in the order of their keys, still to be extracted.
    Rows {
        interval: Interval,
        rows: Rows,
    },
}

impl Part {
    ghost use Rattle.std.specs.Prelude.{◌≡◌};
    ghost use Rattle.param_segments.specs.Plans.{part_interval};

    /// The interval that it is of.
    pub fn interval(&self) -> Interval
        ensures { result.0 ≡ part_interval self.now }
    {
        match self {
            Part::Set { interval, .. } | Part::Rows { interval, .. } => *interval,
        }
    }
}

/// Parts in the order of their intervals.
pub type Parts = Items<Part>;

/// What a retrieval reads, at the front of a history.
#[derive(Drop)]
pub struct Plan {
    /// The number of rows of the history.
    pub front: u64,
    /// The exponent of the archive's intervals.
    pub exponent: Exponent,
    /// The database in force.
    pub mdb: Arc<Mdb, Global>,
    pub parts: Parts,
}
