//! Patience with an interval that goes on growing.

ghost use Rattle.std.specs.Prelude.{◌≡◌};

use crate::target::FillTarget;
use crate::woken::await_wakes;
use arch_types::inserted::Installed;
use crossbeam_channel::Receiver;
use refusals::Refusal;
use std::sync::Wait;

/// How many wake-ups a begin waits for behind the first stale install: those of some intervals' batches, so that most
/// of what is late by then grows no more.
const FIRST: u64 = 256;

/// A target whose begins wait once an install was stale: for 256 wake-ups, and for four times as many after each
/// further stale install, until one is there. Wake-ups that came while a fill was built count. So an interval that
/// grows is begun once or twice while it does, and not once for each batch that comes to it.
pub struct Patient<'a, T: FillTarget, R: Wait> {
    pub target: T,
    rt: &'a R,
    wakes: &'a Receiver<()>,
    /// How many wake-ups the next begin waits for.
    patience: u64,
}

impl<'a, T: FillTarget, R: Wait> Patient<'a, T, R> {
    /// A target that waits for nothing yet.
    pub fn new(rt: &'a R, target: T, wakes: &'a Receiver<()>) -> Self
        ensures { result.target ≡ target }
    {
        Patient {
            target,
            rt,
            wakes,
            patience: 0,
        }
    }

    pub fn into_target(self) -> T
        ensures { result ≡ self.entry.target }
    {
        let Patient {
            target,
            rt: _,
            wakes: _,
            patience: _,
        } = self;
        target
    }
}

/// How many wake-ups to wait for after an install that was answered so.
fn patience_after(patience: u64, answer: &Result<Installed, Refusal>) -> u64 {
    match answer {
        Ok(Installed::Stale { .. }) => patience.saturating_mul(4).max(FIRST),
        Ok(Installed::Done) | Err(_) => 0,
    }
}

impl<'a, T: FillTarget, R: Wait> FillTarget for Patient<'a, T, R> {
    type Task = T::Task;

    ghost begins = { λ old answer new. T.begins old.target answer new.target };

    ghost installs = { λ old task answer new. T.installs old.target task answer new.target };

    ghost abandons = { λ old task new. T.abandons old.target task new.target };

    ghost owns = { λ patient task. T.owns patient.target task };

    fn begin(&mut self) -> Result<Option<T::Task>, Refusal> {
        if self.patience > 0 {
            await_wakes(self.rt, self.wakes, self.patience);
        }
        self.target.begin()
    }

    fn install(&mut self, task: T::Task) -> Result<Installed, Refusal> {
        let answer = self.target.install(task);
        self.patience = patience_after(self.patience, &answer);
        answer
    }

    fn abandon(&mut self, task: T::Task) {
        self.target.abandon(task);
    }
}
