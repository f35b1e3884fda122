//! What happened to fills, which intervals are late and which are in flight, as one value.
//!
//! `FillTracker` keeps the fill list with the late marks that go with it, and the intervals in flight. It holds no
//! history: its clauses say that where its marks are those of a history and its fill list (`AreMarksOf` in
//! specs/FillTracker.antt), they are so after each call. So the store says that once, in its type, and reads from the
//! tracker whether an interval is late, which is next to fill, and where its last change stands. The list has a place for
//! the end of each flight, so that neither that end nor a fault noted before wants memory once the disk was written.
//!
//! The idea of the proof: an item of the fill list changes the mark of its own interval alone, and just as the list
//! then tells it (`marked_item`, proofs/Marked.antt); rows of one interval change its mark alone, and come in runs
//! (proofs/Runs.antt), each of which looks for the mark once.
//! It is made for the store, in place of history_items' `FillList`, which has no marks.
#![tactic(auto)]

mod flights;
mod tracker;

pub use tracker::FillTracker;
