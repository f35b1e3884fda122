//! A gate before the calls of jobs.

/// What a job passes before each call on what it shares with other jobs. No contract sees what it does: a test's gate holds a
/// job there until another has come so far.
pub trait Gate {
    /// The job of this number is about to make its call of this number. Both are counted from 1.
    fn pass(&self, job: u32, turn: u64);
}

/// A gate that holds nobody.
#[derive(Drop)]
pub struct OpenGate;

impl Gate for OpenGate {
    fn pass(&self, _job: u32, _turn: u64) {}
}
