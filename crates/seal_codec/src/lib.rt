//! Seals as octets, both ways.
//!
//! Stands for: what an entry says by which an archive names its runs, fill files and logs (`seal_octets` of specs/Seals.antt;
//! docs/FORMATS.md draws it), behind the kind, which field_codec reads and writes. A seal says that the first so many rows of a
//! history stand in runs and their fills in a fill file, and which log goes on from there. That a seal's files rise, above all
//! that were named before, is `names_above`; which rows they hold is asked beside them, by the store.
//!
//! The one idea of the proof: the reader is exact (octet_fields), so octets are of one seal, and a seal has one spelling.
//!
//! To be changed together: a field of a seal, `seal_octets`, `seal_at` and `put_seal`.
#![tactic(auto)]

pub mod laws;
mod seal;

pub use seal::{Seal, SealedRun, SealedRuns, names_above, put_seal, read_seal};
