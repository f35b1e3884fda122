//! Walks over the intervals that have rows, and how many of them are late.
//!
//! A retrieval of a range of times reads the intervals that meet it, one after the other (`intervals_meeting`): of their
//! rows, those in the range are the range's (`laws::ranges_are_intervals`). How many intervals are late, and that each
//! fill leaves one less, is what a loop that fills them all ends by (`late_intervals` in specs/Counts.antt).
//!
//! The one idea of the proof: rows in the order of their keys stand in the order of their intervals too, so that the rows
//! of one interval come before those of a later one (proofs/Turns.antt).
//! Callers: the store, which plans retrievals, and the commands that fill what is late.
#![tactic(auto)]

pub mod laws;
mod walk;

pub use walk::intervals_meeting;
