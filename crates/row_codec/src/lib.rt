//! A row as octets, both ways, whatever it stands in.
//!
//! Stands for: rows that may be stored (`IsStored` of specs/Rows.antt), each with its one spelling (`row_octets` of
//! specs/Spelling.antt). `put_row` adds it to a buffer, and `read_row` reads it at the front of octets, whatever
//! follows it. No row's spelling begins another's (`laws`). Called by what keeps rows as octets: the entries of the
//! journal and the pages of runs.
//!
//! A packet that is read is a slice of the block that the octets are an end of, so that no octet is copied. That a
//! row's table and packet name exist is asked by the store, which knows the database; this crate knows none.
//!
//! The one idea of the proof: reading a row is a composition of exact readers (octet_fields), which the code mirrors.
//! A field more is, together, one of `Fields`, of `fields_at` and `row_of_fields`, of `row_octets` and of `put_row`.
#![tactic(auto)]

mod block;
pub mod laws;
mod rows;

pub use block::part_before;
pub use rows::{put_row, read_row, row_len};
