//! Segments as octets, both ways (docs/FORMATS.md draws them).
//!
//! A segment has the raw values of some parameters in the same rows, up to 4,096: a column of keys, and a raw column
//! for each parameter. `IsSegment` of specs/Segment.antt says which segments the format admits by itself, and
//! `segment_octets` what each is spelled as: `write_segment` gives just that, `read_segment` accepts these spellings
//! and nothing else, from any octets and any place in them, and no spelling begins another (`laws`). `read_column`
//! decodes the keys and one column alone, `read_column_in_range` of these the rows of a range of times, `read_head` the
//! parameters and the first key, and `read_parameters` the parameters alone. `read_outline` asks of the octets what
//! `read_segment` asks, and keeps the parameters, how many rows there are, and how far keys and values reach. That times
//! lie in an interval, and values in the width of a database's parameters, isn't asked here: a set of segments asks it.
//!
//! The one idea of the proof: what is read is a composition of exact readers (octet_fields); the code mirrors it. By
//! hand are the leaves of this crate: the varint (proofs/Varints.antt), numbers of a width without gaps (Numbers and
//! Packing) and the raw column over them (Columns). Numbers of a width are one great number, and what stands between
//! two octets while they are written or read is `Pending`: each step keeps that number. Values are packed and unpacked
//! in one pass: no list of their differences is ever made.
//!
//! A raw column has one spelling because its least value, its width and its last bits are asked again when it's read.
//! A new form of column wants, together, its line in `raw_column`, its reader in `raw_column_at`, an arm each of
//! `raw_column_at`, `values_in_rows` and `put_raw_column`, and its length in `column_end`.
#![tactic(auto)]

mod bits;
mod column_range;
mod fault;
mod key_column;
pub mod laws;
mod one_column;
mod outline;
mod parameters;
mod range_column;
mod raw_column;
mod reading;
mod segment;
mod segment_head;
mod unpack;
mod varint_ends;
mod writing;

pub use column_range::ColumnRange;
pub use fault::NotASegment;
pub use one_column::{ParameterColumn, read_column};
pub use outline::{RangeList, SegmentOutline, read_outline};
pub use parameters::read_parameters;
pub use range_column::{RowRange, read_column_in_range};
pub use reading::read_segment;
pub use segment::{ColumnList, KeyList, MOST_ROWS, ParameterList, RawColumn, Segment};
pub use segment_head::{SegmentHead, read_head};
pub use writing::{put_segment, write_segment};
