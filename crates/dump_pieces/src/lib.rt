//! A dump that is read in pieces, and given packet by packet.
//!
//! Stands for: a packet after the other of what a source has left (`HasGiven`, specs/Reading.antt), up to the rest that
//! begins with no packet (`IsDumpRead`). Called by what receives a dump: `dump_lines` for `scan` and `values`, and, for
//! the pieces alone (`read_piece`), the links of a load (`load_jobs`).
//!
//! The one idea of the proof: what was read is the packets given, joined, what waits, and, behind another packet
//! version number, what was passed over. Each call carries that on, whatever was read before it
//! (proofs/ReadSoFar.antt).
//!
//! Of a dump no more is held than a piece, and the pieces that a packet crosses.
#![tactic(auto)]

pub mod piece;
pub mod reading;
