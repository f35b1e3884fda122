//! Readers of a live archive.
//!
//! Stands for: how a reader's asks are answered (`AreAnswered` in specs/LiveAsks.antt): each over the history that
//! there was in some turn, which goes on from that of the answer before; that a reader puts nothing behind the lists
//! but faults of reads (`OnlySees`); and that its asks together take a step at most for each row of their ranges that
//! was late in their turns (`AreAsked`), all counted in one book. Answers are kept as cells and rows with their
//! fronts, so that they may be printed once all jobs have ended. A reader is a job (`Reader`), which has every fourth
//! ask. Called by live_session.
//!
//! Where a reader has a glance, that answers its asks for values, and a turn those to which it has no answer. Behind the
//! last ask one turn shows whether all that the glance has seen begins what the pass has seen (`is_settled`); where it
//! doesn't, or there's no memory to tell, all asks are answered again in turns.
//!
//! The idea of the proof: what was answered over a history stays so as the pass sees more; a replay gives the same rows
//! of each history that goes on from that of its opening; and of two histories with which a third begins the longer
//! goes on from the shorter.
#![tactic(auto)]

mod answered;
mod glancing;
mod reader;
mod turns;

pub use answered::{AskAnswer, AskAnswers, ReplayedRows};
pub use glancing::LiveGlance;
pub use reader::{READERS, Reader, ReaderDone};
