//! Gates that hold a job until others have come so far.

use outer_traits::gate::Gate;
use std::sync::atomic::{AtomicU64, Ordering};
use std::thread;

/// How often a job that is held lets others run before it goes on to no avail. It is so often that a machine that is busy
/// with other work doesn't end the wait: only a load whose jobs don't run beside each other waits to its end.
pub(crate) const YIELDS: u32 = 100_000_000;

/// Which call of which job is held, and until which call of which other.
#[derive(Clone, Copy)]
pub(crate) struct Held {
    pub(crate) job: u32,
    pub(crate) turn: u64,
    pub(crate) until_job: u32,
    pub(crate) until_turn: u64,
}

/// Such a gate.
#[derive(Drop)]
pub(crate) struct HoldingGate {
    held: Held,
    /// 1 once the other has come so far.
    reached: AtomicU64,
    /// 1 once the job was held to no avail.
    gave_up: AtomicU64,
}

impl HoldingGate {
    pub(crate) fn new(held: Held) -> HoldingGate {
        HoldingGate {
            held,
            reached: AtomicU64::new(0),
            gave_up: AtomicU64::new(0),
        }
    }

    /// Whether the job was held, and went on since the other had come so far.
    pub(crate) fn let_pass(&self) -> bool {
        self.reached.load(Ordering::SeqCst) == 1 && self.gave_up.load(Ordering::SeqCst) == 0
    }

    fn hold(&self) {
        for _ in 0..YIELDS {
            if self.reached.load(Ordering::SeqCst) == 1 {
                return;
            }
            thread::yield_now();
        }
        self.gave_up.store(1, Ordering::SeqCst);
    }
}

impl Gate for HoldingGate {
    fn pass(&self, job: u32, turn: u64) {
        if job == self.held.until_job && turn >= self.held.until_turn {
            self.reached.store(1, Ordering::SeqCst);
        }
        if job == self.held.job && turn == self.held.turn {
            self.hold();
        }
    }
}

/// A gate that shows how many fillers a load has. Each is held at its first call until all have come, and the first link
/// at each call until as many have as it has sent batches, so that each batch wakes another one.
#[derive(Drop)]
pub(crate) struct FillersGate {
    links: u32,
    fillers: u32,
    /// How many have come.
    come: AtomicU64,
    /// 1 once a job was held to no avail, or one came that is none of these.
    is_other: AtomicU64,
}

impl FillersGate {
    pub(crate) fn new(links: u32, fillers: u32) -> FillersGate {
        FillersGate {
            links,
            fillers,
            come: AtomicU64::new(0),
            is_other: AtomicU64::new(0),
        }
    }

    /// Whether just these have come.
    pub(crate) fn have_come(&self) -> bool {
        self.come.load(Ordering::SeqCst) == u64::from(self.fillers)
            && self.is_other.load(Ordering::SeqCst) == 0
    }

    fn hold(&self, count: u64) {
        for _ in 0..YIELDS {
            if self.come.load(Ordering::SeqCst) >= count {
                return;
            }
            thread::yield_now();
        }
        self.is_other.store(1, Ordering::SeqCst);
    }
}

impl Gate for FillersGate {
    fn pass(&self, job: u32, turn: u64) {
        let all = u64::from(self.fillers);
        if job > self.links.saturating_add(self.fillers) {
            self.is_other.store(1, Ordering::SeqCst);
        } else if job > self.links {
            if self.come.load(Ordering::SeqCst) < all {
                self.come.fetch_add(1, Ordering::SeqCst);
                self.hold(all);
            }
        } else if job == 1 {
            self.hold(turn.saturating_sub(1).min(all));
        }
    }
}
