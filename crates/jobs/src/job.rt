//! A job.

use std::sync::Wait;

/// What a thread of its own can do.
pub trait Job {
    type Done: Send;

    /// It may be run.
    ghost may: { Self → Type 0 };

    /// This came of it.
    ghost did: { Self → Self.Done → Type 0 };

    fn run<R: Wait>(self, rt: &R) -> Self::Done
        requires { may self }
        ensures { did self result };
}
