//! Fills that are begun, built and installed beside others who add to what is filled.
//!
//! Stands for: the work of a filler, which begins and installs until there is none left to begin (`work`), over
//! anything that fills can be begun of and installed in (`FillTarget`). Its contract says nothing of archives: what a
//! begin and an install do is the target's own word, and a work is a run of them (specs/Work.antt). A filler works
//! again whenever it is woken, until nobody is left to wake it (`work_when_woken`); nothing is claimed of the channel that
//! wakes it. What waits, and for how long, is the target's matter: a `Patient` one lets an interval grow that was
//! stale. Called by the fillers of a load (live_fills).
//!
//! To be changed together: `FillTarget` and the words of specs/Work.antt.
#![tactic(auto)]

mod patient;
mod target;
mod woken;
mod working;

pub use patient::Patient;
pub use target::FillTarget;
pub use woken::work_when_woken;
pub use working::work;
