//! What a listing has beside its publication.

use intervals::{Exponent, Interval};
use mdb_model::Mdb;
use param_segments::SegSet;
use shared_items::{Numbered, SharedItems};
use std::alloc::Global;
use std::sync::Arc;

/// What is published of an interval that has rows of table `tm`.
#[derive(Drop)]
pub struct PublishedMark {
    pub interval: Interval,
    /// The position of what changed the interval last.
    pub last: u64,
    /// The base of its last fill.
    pub base: Option<u64>,
    /// The set that stands for it, where it isn't late.
    pub set: Option<Arc<SegSet, Global>>,
}

impl Numbered for PublishedMark {
    ghost number_of = { λ mark. mark.interval.0 };

    fn number(&self) -> i64 {
        self.interval.0
    }
}

/// Marks in the order of their intervals. What didn't change between two publications they share.
pub type PublishedMarks = SharedItems<PublishedMark>;

/// What a retrieval over a publication needs of it.
#[derive(Drop)]
pub struct Contents {
    /// The length of the history.
    pub front: u64,
    /// The length of the fill list.
    pub fills: u64,
    /// The exponent of the archive's intervals.
    pub exponent: Exponent,
    /// The database in force.
    pub mdb: Arc<Mdb, Global>,
    /// One for each interval that has rows.
    pub marks: PublishedMarks,
}
