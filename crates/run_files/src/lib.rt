//! Runs: files of sealed rows of one table, each read page by page.
//!
//! Stands for: a `Run`, which is what memory has of a run file (32 octets a page), and the rows that it has on a disk
//! (`HoldsRun` of specs/Run.antt; the octets are those of run_pages). A file is opened whole, by `RunOpening` page after
//! page for a caller that asks more of the rows, or by `open_run`; then single pages are read by key (`Run::page_of`,
//! `Run::rows_of`). Called by what keeps an archive's sealed rows.
//!
//! An opening answers Damaged exactly where the file is damaged, and what was opened is damaged at no later read: over a
//! disk that tells what it holds. Whatever a disk tells, the rows of a page are of the run's table and in order.
//!
//! The one idea of the proof: an opening knows the first pages of the file (`IsReadingRun`), each page one more or the first
//! that is broken, and a file whose pages are all whole is a run (`whole_pages_are_runs` of run_pages). To touch together:
//! what a page must be stands in run_pages alone; a call of the disk more goes into steps.rt, with its fault.
#![tactic(auto)]

mod end;
mod fault;
pub mod laws;
mod lookup;
mod opening;
mod pages;
mod run;
mod run_index;
mod steps;
mod writing;

pub use fault::RunFault;
pub use opening::{MAX_ROWS, RunOpening, open_run};
pub use run::Run;
pub use writing::write_run;
