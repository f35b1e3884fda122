//! What is filled, as a number of tasks.

use arch_types::inserted::Installed;
use backfiller::FillTarget;
use outer_traits::gate::Gate;
use refusals::Refusal;
use std::sync::atomic::{AtomicU64, Ordering};

/// Tasks of which the first installs are stale.
#[derive(Drop)]
pub(crate) struct Queue {
    /// How many fills are left to install.
    pub(crate) left: u64,
    /// How many installs are stale before one is there.
    pub(crate) stale: u64,
    pub(crate) begun: u64,
    pub(crate) installed: u64,
    /// The begin that is refused, from 1.
    pub(crate) refused: u64,
}

/// So many fills to install, the first only after so many stale ones.
pub(crate) fn queue_of(left: u64, stale: u64) -> Queue {
    Queue {
        left,
        stale,
        begun: 0,
        installed: 0,
        refused: 0,
    }
}

impl FillTarget for Queue {
    type Task = u64;

    ghost begins = { λ old answer new. Unit {0} };

    ghost installs = { λ old task answer new. Unit {0} };

    ghost abandons = { λ old task new. Unit {0} };

    ghost owns = { λ queue task. Unit {0} };

    fn begin(&mut self) -> Result<Option<u64>, Refusal> {
        if self.left == 0 {
            return Ok(None);
        }
        self.begun = self.begun.saturating_add(1);
        if self.begun == self.refused {
            return Err(Refusal::OutOfMemory);
        }
        Ok(Some(self.begun))
    }

    fn install(&mut self, task: u64) -> Result<Installed, Refusal> {
        if self.stale > 0 {
            self.stale -= 1;
            return Ok(Installed::Stale { position: task });
        }
        self.left = self.left.saturating_sub(1);
        self.installed = self.installed.saturating_add(1);
        Ok(Installed::Done)
    }

    fn abandon(&mut self, _task: u64) {}
}

/// A gate that notes how often it was passed, and by which number last.
#[derive(Drop)]
pub(crate) struct Notes {
    pub(crate) passed: AtomicU64,
    pub(crate) last: AtomicU64,
}

pub(crate) fn no_notes() -> Notes {
    Notes {
        passed: AtomicU64::new(0),
        last: AtomicU64::new(0),
    }
}

impl Gate for Notes {
    fn pass(&self, _job: u32, turn: u64) {
        self.passed.fetch_add(1, Ordering::SeqCst);
        self.last.store(turn, Ordering::SeqCst);
    }
}
