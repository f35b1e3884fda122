//! Selections from tables, and what is written of them.
//!
//! Stands for: the rows of each source that meet a condition, merged by key with ties in the order of the sources, turned where that
//! is asked, up to a limit (`specs/Selection.antt`), and their text (`specs/SelectionText.antt`).
//! Called by the command that answers queries.
//!
//! `select` goes over the days of the partitions from the side that is asked, reads a day's rows of each source in the order of
//! their keys, merges them, and asks the condition of one after the other until the limit is reached; no later day is read then.
//! The idea of its proof: the rows of the partitions that are left are, in the order that is asked, those of the next day and then
//! those of the others (`days::split_day`), whatever rows in key order they are taken of; so they may be taken of all sources
//! merged, and the condition, the order and the bounds of the condition are asked in any turn.
//!
//! A selection is its rows, which contracts see as their text: it is written line after line, and never stands in one block.
//! What SHOW prints (`specs/ShowText.antt`) is written so too, of lines that are counted before.
//!
//! A caller hands in the partitions that the condition's bounds leave, and prints what is selected:
//!
//!     /// Prints a query's selection of the rows that a source has below a front.
//!     fn print_selected<R: RowSource, K: Sink, L: Ledger>(
//!         alloc: Global,
//!         query: &TypedSelect,
//!         names: &Names,
//!         source: &mut R,
//!         parts: &PartList,
//!         front: u64,
//!         sink: &mut K,
//!         steps: &mut Steps<L>,
//!     ) -> Result<(), Refusal> {
//!         let selection = select(alloc, query, names, source, parts, front, steps)?;
//!         let mut line_buffer = LineBuffer::new(alloc)?;
//!         selection.print(alloc, &mut line_buffer, sink)?;
//!         match line_buffer.finish(sink) {
//!             Ok(()) => Ok(()),
//!             Err(_) => Err(Refusal::WriteFault),
//!         }
//!     }
#![tactic(auto)]

mod days;
pub mod laws;
mod merge;
mod printing;
pub mod select;
pub mod selection_text;
pub mod show;
mod values;
