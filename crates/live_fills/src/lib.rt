//! A live archive as what fillers fill.
//!
//! Stands for: what a filler's begins and installs are of a live archive (`BeginsInTurn`, `InstallsInTurn`): each takes
//! a turn of its pass, and what is between, the building of a fill, takes none, so others ingest and ask meanwhile.
//! What all of its turns come to (`FillsAlone`): it has put nothing into the history, and has noted fills of late
//! intervals alone; and why one ended before the links did (`IsFillerRefusal`). A filler is a job (`Filler`), which
//! works whenever a link wakes it. Where fillers alone have filled, each interval has the fill that it had, or was late
//! and has a right one (`laws`). Caller: the session of a load.
//!
//! The idea of the proof: a task is a filler's own where whatever is built of it may be installed (`IsOwnTask`), and
//! that a task is which has begun in a turn of its pass is a law of live_archive. To be changed together: what a call
//! adds to the fill list (specs/Added.antt of live_archive), and `IsFillNote`.
#![tactic(auto)]

mod filler;
pub mod laws;
mod live_target;

pub use filler::{Filler, FillerDone};
pub use live_target::LiveTarget;
