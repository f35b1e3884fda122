//! Segment sets: the parameter archive's columns of one interval, spelled as its segments (docs/FORMATS.md draws them).
//!
//! Stands for: rows, each a key and the raw values of its packet in the order of extraction (`AreSetRows` of
//! specs/Rows.antt). Groups, pieces of 4,096 rows and segments are in the spelling alone: `set_of` of specs/Groups.antt
//! says which segments rows have, so rows have one spelling. A `SetBuilder` takes rows one after the other and gives
//! their set whenever it's asked; `SegSet::build` extracts the rows of an interval and builds over them; `from_bytes`
//! accepts octets whose segments are those of the set of their rows, and asks so where they stand (`runs`,
//! `laws::segments_are_of_a_set`); `cells` is what an extraction of these rows would give of a parameter, read from the
//! columns, and `cells_in_range` what a range asks of them. Called by whoever fills an interval, and by retrievals,
//! whose `Plan` and its parts stand here.
//!
//! The one idea of the proof: the rows of the segments of rows are these rows (`laws::set_has_its_rows`). So what a
//! parameter's columns give, group by group, are its cells in some order, and by their keys in the one order
//! (proofs/CellOrder.antt). While rows come, each group keeps a function of its rows (`contents_of` of
//! specs/GroupContents.antt), and a row more is one step of it (proofs/Steps.antt).
//!
//! A rule more of the spelling wants, together, its line in `set_of`, its step in `with_values`, and the laws anew.
//!
//! A caller keeps the octets of a set, and answers from these:
//!
//!     /// The cells of a parameter that the stored octets of an interval's rows give.
//!     fn stored_cells(
//!         alloc: Global,
//!         interval: Interval,
//!         exponent: Exponent,
//!         rows: &Rows,
//!         mdb: &Mdb,
//!         parameter: u16,
//!     ) -> Result<Cells, NotASegment> {
//!         let octets = SegSet::build(alloc, interval, exponent, rows, mdb)?.to_bytes()?;
//!         let set = SegSet::from_octets(alloc, interval, exponent, octets, mdb)?;
//!         Ok(set.cells(alloc, mdb, parameter)?)
//!     }
#![tactic(auto)]

mod asking;
mod build;
mod builder;
mod cell_range;
mod cells;
mod decoding;
mod group;
mod group_guesses;
mod group_numbers;
mod key_place;
pub mod laws;
mod plan;
mod range_cells;
mod raw_cell;
mod reading;
mod runs;
mod set;

pub use builder::SetBuilder;
pub use cell_range::CellRange;
pub use plan::{Part, Parts, Plan};
pub use raw_cell::{RawCell, RawCells};
pub use segment_codec::NotASegment;
pub use set::SegSet;
