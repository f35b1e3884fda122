//! Fills as a store holds them: the last fill of each interval, and when fills are sound. No disk.
//!
//! A fill that is there is a base and a set (`Filling` of specs/Sound.antt): the set holds what the interval's rows
//! below the base give. `AreSound` says so of every interval none of whose rows came later, whatever a set is; two laws
//! say that more rows, and a fill that is right, leave it so. `LastFills` keeps the last fill of each interval. A
//! `FillTask` is what a fill is built of, and a `Filled` is one that is built, with the database and the exponent that
//! it is of, and the record that stands for it on a disk. Callers: the store, which reads fills of its disk, gives
//! tasks and installs what was built; and whoever builds in between.
//!
//! The idea of the proof: an interval none of whose rows came at or after a base has the rows that it had below the base
//! (interval_fills). In `LastFills` each interval has one place, where a later fill takes that of the one before, so
//! that sets are as many as intervals.
#![tactic(auto)]

mod filled;
mod last_fills;
pub mod laws;
mod task;

pub use filled::Filled;
pub use last_fills::{LastFill, LastFills};
pub use task::FillTask;
