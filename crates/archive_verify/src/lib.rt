//! Whether what an archive keeps of its intervals is what their rows give.
//!
//! An archive is sound where each fill that stands for its interval, none of whose rows came later, holds the cells that
//! the interval's rows give of every parameter (`HoldCurrentFills` of specs/Verified.antt). `verify` compares them, and
//! answers Ok exactly for a sound one; else it names the first mismatch: the least interval, of that the least parameter,
//! and of that the least key (`IsFirstMismatch`). Both are said of the archive that a disk stands for, not of the store's
//! own lists, so that an image decides the answer (`laws`). Called by the command `verify`.
//!
//! The idea of the proof: the rows of an interval are extracted once, into the set that a fill would have made of them,
//! and two sets are compared parameter by parameter. Cells of one parameter with one raw number have one engineering
//! value, so keys and raw numbers tell all (proofs/Cells.antt).
#![tactic(auto)]

mod compared_sets;
mod differences;
pub mod laws;
mod verified;

pub use compared_sets::SetDifference;
pub use differences::CellDifference;
pub use verified::{Sound, verify};
