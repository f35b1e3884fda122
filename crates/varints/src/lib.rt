//! Unsigned varints.
//!
//! Stands for: what a number is spelled as (`varint` of specs/Varint.antt: seven bits an octet from the lowest on, the top bit
//! set on all octets but the last), and its reader, which is exact (proofs/Varints.antt): one of at most 14 octets is read, and
//! nothing else. Called by segment_codec, for gaps of keys, and by packed_cells.
#![tactic(auto)]

mod varint;

pub use varint::{Spelling, put_varint, put_word, varint_at, word_at};
