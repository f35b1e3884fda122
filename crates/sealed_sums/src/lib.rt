//! What rows come to that are in memory no longer: the rows of runs, page by page.
//!
//! Stands for: what the limits count, how many rows each partition has, the spans of each packet name, and the marks of the
//! intervals, of rows each at its position, before they are a history (`AreSumsOf` of specs/Sums.antt, `AreMarksOfPlaced` of
//! fill_tracker). Pages come in the order of keys and the history is in the order of positions: none of these looks at the order
//! of rows, and an interval's mark at the greatest position alone (src/laws.rt). Called by what opens an archive with runs.
//!
//! Neighbours that go together are told at once (src/stretch.rt): rows of one table, interval and partition whose times make one
//! record. The one idea of the proof: a stretch is so many times its interval and its partition, and one record of times
//! (proofs/Stretches.antt).
//!
//! To be changed together: what `SealedSums::add_page` notes and `AreSumsOf`; a field of a stretch and `IsStretchOf`.
#![tactic(auto)]

pub mod laws;
mod marking;
mod stretch;
pub mod sums;
pub mod table_sums;
