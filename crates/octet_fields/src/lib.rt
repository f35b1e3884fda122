//! Fields of stored octets, both ways, and the theory of exact readers.
//!
//! Stands for: what a value is spelled as in octets (`specs/Spelling.antt`: numbers with the highest
//! octet first, two's complement, names, counted lists), and readers on lists that read it
//! (`specs/Reading.antt`). A reader is exact (`IsExact` of `specs/Exact.antt`) where it reads the
//! spelling of each value that fits, whatever follows, and nothing else: so a value has one spelling,
//! and no spelling begins another. Called by every codec: the mission database, the journal's
//! entries, segments.
//!
//! The one idea: a format is a composition of readers, and each way of composing keeps exactness
//! (`proofs/Exact.antt`), so a format's proof is one term. The code mirrors the composition by `?`
//! and answers what it gives (`Answers`, `Gives`). Values one after the other are `each_at` and
//! `put_each` of a codec, whose loops stand here alone; a loop that can't be one of them keeps
//! `Remaining` of `proofs/Times.antt`. `example` shows a whole format. A new kind of field wants,
//! together, its spelling, its reader, its law, its leaf and its `put_`.
#![tactic(auto)]

pub mod codec;
pub mod example;
pub mod fault;
pub mod reading;
pub mod writing;

pub use codec::{Decode, Encode, each_at, put_each};
pub use fault::{DecodeError, Short};
pub use reading::{i64_at, i128_at, name_at, octets_at, room_for, u8_at, u16_at, u32_at, u64_at};
pub use writing::{put_i64, put_i128, put_name, put_u8, put_u16, put_u32, put_u64};
