//! What is filled.

use arch_types::row::Rows;
use intervals::{Exponent, Interval};
use mdb_model::Mdb;
use std::alloc::Global;
use std::sync::Arc;

/// A fill of an interval that has begun: what its set is built of.
#[derive(Drop)]
pub struct FillTask {
    pub interval: Interval,
    /// The exponent of the archive's intervals.
    pub exponent: Exponent,
    /// The number of items of the history that the fill looks at.
    pub base: u64,
    /// The interval's rows of table `tm` among these, in the order of their keys.
    pub rows: Rows,
    /// The database in force.
    pub mdb: Arc<Mdb, Global>,
}
