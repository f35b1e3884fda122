//! A dump's rows and their lines: what is kept of the rows of a dump's packets, and what is printed of them.
//!
//! Stands for: the first row of each key that the packets of a dump give (specs/DumpTable.antt), or its key and the
//! length of its packet alone (specs/DumpIndex.antt); the receiving of a dump packet by packet, whatever is kept of
//! them (`DumpRows`, specs/Receiving.antt); and what is printed (specs/Text.antt, specs/Printing.antt).
//! Called by the commands that read a dump: `scan` keeps keys, `values` keeps rows.
//!
//! The one idea of the proofs: a packet is idle, new or a duplicate behind those before it (`IsOutcomeOf`), which says
//! what it adds to the rows (proofs/Scanned.antt) and to the counts, however they are kept.
#![tactic(auto)]

pub mod counts;
pub mod index;
pub mod lines;
pub mod receiving;
pub mod table;
