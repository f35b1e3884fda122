//! What a record of the archive's journal holds.

use arch_types::name::Names;
use arch_types::octets::Octets;
use arch_types::row::Rows;
use intervals::Interval;
use mdb_model::Mdb;
use seal_codec::Seal;

/// An entry of the archive's journal.
#[derive(Drop)]
pub enum Entry {
    /// The first entry of an archive, and no other: its tables and its mission database.
    Head {
        tables: Names,
        mdb: Mdb,
    },
    /// Rows in the order in which they came to the history.
    Rows(Rows),
    /// The fill of an interval over the first `base` rows of the history. What reads the octets of its set says whether
    /// they are one.
    Fill {
        interval: Interval,
        base: u64,
        set: Octets,
    },
    /// Behind all else of file 0: the first rows of the history stand in runs, and another log goes on from there.
    Seal(Seal),
    /// The first entry of a fill file and of a log that isn't file 0, and no other: how many rows stand in runs.
    LogHead {
        rows: u64,
    },
}
