//! The rows of an archive in memory: a history of tables, and what it counts against the limits.
//!
//! Stands for: the list of rows in the order in which they came to stay, the first of each table and key
//! (`specs/History.antt`), with the rows of each table (`specs/Tables.antt`), which of them each partition has
//! (`specs/PartitionedTable.antt`), and the octets and rows of intervals that the limits speak of
//! (`specs/RowLimits.antt`, `specs/Limits.antt`, `specs/LimitCounts.antt`). A row is added without memory once room was made. Called by the
//! store.
//!
//! The rows of a partition are gathered by their places and put in order: where each has its own key there is one order
//! (`only_order`, proofs/KeyOrder.antt). Those of several partitions in a range are looked for among the keys, as long as
//! that costs no more than their places would (src/ranged.rt).
//!
//! To be changed together: the limits in specs/RowLimits.antt and src/row_limit.rt, whose numbers
//! refusals has too (`history_limits_agree` of archive_store); what `PartitionedTable::insert` notes and
//! `IsPartitioned`.
#![tactic(auto)]

pub mod history;
pub mod limit_counts;
pub mod partitioned_table;
mod ranged;
pub mod row_limit;
mod tables;
