//! What is shown of a load that goes on, on a terminal.
//!
//! Stands for: the text of the line (`specs/Throughput.antt`), and what a job that passes the gate of a load has done
//! since its last pass (`specs/Passes.antt`). Called by `outer_real`, which counts and prints, and by the program.
//!
//! The one idea: a link passes the gate before each batch, so that each pass behind its first tells of a batch that was
//! acknowledged, which isn't its dump's last and so has 64 packets (`watched_jobs_agree` of command_laws has the number
//! as load_session has it). A filler passes it before each begin and each install by turns, and counts them anew each
//! time it is woken.
#![tactic(auto)]

mod passes;
mod throughput;
mod watched;

pub use passes::{fills_behind, packets_behind};
pub use throughput::{Rate, Throughput};
pub use watched::{WatchedJobs, watched_jobs};
