//! The words of a command line, and the job that they ask for.
//!
//! Stands for: which arguments a command takes (`specs/Arguments.antt`), what `clap` finds in its words
//! (`specs/Words.antt`), and which job they ask for (`specs/Job.antt`); words that are none are Usage. Which limits the
//! words of a load pass stands in `specs/LoadLimits.antt`. Called by the top call. A later command adds its case.
#![tactic(auto)]

pub mod job;
pub mod load_limits;
pub mod words;

pub use job::{Job, job_of};
