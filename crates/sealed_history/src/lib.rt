//! The rows of an archive whose first ones stand in runs: a log in memory over them.
//!
//! Stands for: the runs, their rows as they were told, and the rows of a log behind them (`SealedHistoryView` of
//! specs/SealedHistory.antt). Of the rows in runs nothing is kept but what they come to (`SealedSums`); who wants them
//! reads them from a disk (sealed_rows). Limits, partitions and spans are those of all rows; the other calls answer for
//! the log alone, at the positions that its rows have in the whole. Called by nothing yet: an archive whose rows are
//! sealed is to be opened and kept by it.
//!
//! The type doesn't say that the rows of the runs are a history: a log is read before that is known. Where it is known
//! (`IsWholeHistory`), what is counted is what the items come to (src/laws.rt).
//!
//! The one idea of the proof: no sum looks at the order of rows, so runs and log are counted apart and added. To be
//! changed together: the fields of `SealedHistory` and `AreTogether`; `limit_passed` here and in archive_history.
#![tactic(auto)]

mod adding;
pub mod history;
pub mod laws;
mod limits;
mod reading;
mod spans;

pub use history::SealedHistory;
