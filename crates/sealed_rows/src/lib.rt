//! The rows of runs as a source of rows.
//!
//! Stands for: `SealedRows`, a `RowSource` of the rows that runs have on a disk (`sealed_state` of specs/Sealed.antt): the
//! rows with a position below a front, in the order of their positions, where the disk tells what it holds. A range reads
//! the pages of the table's runs that may have rows of it, each once, and sorts once (src/reading.rt); the position of a
//! key asks, run by run, the one page that may have it (src/places.rt). Called by nothing yet: an archive whose rows are
//! sealed is to be read by it, beside the rows of its log (joined_rows).
//!
//! The one idea of the proof: a run's rows are a function of its file (`rows_in` of specs/Rows.antt), which is what it
//! holds (`rows_in_run` of proofs/Held.antt), and rows with rising keys are told by what they contain, so that neither
//! the order of the runs nor which pages were passed over is seen. To be changed together: what is wanted of a page's
//! rows, `is_wanted` here and in specs/Wanted.antt.
#![tactic(auto)]

mod fault;
mod kept_parts;
mod page_span;
pub mod places;
mod reading;
pub mod sealed;
mod wanted;
