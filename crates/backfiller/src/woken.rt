//! A filler that works whenever it is woken.

ghost use Rattle.std.specs.Prelude.{OnOk, IfErr};
ghost use Rattle.backfiller.specs.Work.{AreAllDone, IsOneRefused};

use crate::target::FillTarget;
use crate::working::work;
use crossbeam_channel::Receiver;
use outer_traits::gate::Gate;
use refusals::Refusal;
use std::sync::Wait;
use std::sync::atomic::AtomicU64;
use std::time::Duration;

/// The time between two looks for wake-ups of which many are awaited, in microseconds.
const BETWEEN_LOOKS: u64 = 1_000;

/// Works once after each wake-up, until nobody is left who could send one. Of wake-ups that have gathered one is
/// enough, since a work leaves none to begin.
pub fn work_when_woken<R: Wait, T: FillTarget, G: Gate>(
    rt: &R,
    target: &mut T,
    wakes: &Receiver<()>,
    gate: &G,
    job: u32,
) -> Result<(), Refusal>
    // Ok: each work ended at a begin that gave none.
    ensures done { OnOk result (AreAllDone T.begins T.installs target.old target.new) }

    // Refused: so did each but the last, whose last call was refused so.
    ensures refused { IfErr result (IsOneRefused T.begins T.installs target.old target.new) }
{
    for _ in rt.forever() {
        if wakes.recv(rt).is_err() {
            return Ok(());
        }
        take_waiting(rt, wakes);
        work(rt, target, gate, job)?;
    }
    unreachable!()
}

/// Takes the wake-ups that have gathered.
fn take_waiting<R: Wait>(rt: &R, wakes: &Receiver<()>) {
    for _ in rt.forever() {
        if wakes.try_recv(rt).is_err() {
            return;
        }
    }
}

/// Waits for so many wake-ups, or until nobody is left who could send one. It looks for them from time to time: a link
/// that found it waiting would have to wake it by a call of the system at each batch.
pub(crate) fn await_wakes<R: Wait>(rt: &R, wakes: &Receiver<()>, count: u64) {
    let never = AtomicU64::new(0);
    let mut left = count;
    for _ in rt.forever() {
        left = left.saturating_sub(take_some(rt, wakes, left));
        if left == 0 || wakes.recv(rt).is_err() {
            return;
        }
        left = left.saturating_sub(1);
        never.park_timeout(rt, 0, Duration::from_micros(BETWEEN_LOOKS));
    }
}

/// Takes wake-ups that have gathered, at most so many, and tells how many.
fn take_some<R: Wait>(rt: &R, wakes: &Receiver<()>, most: u64) -> u64 {
    for taken in 0..most {
        if wakes.try_recv(rt).is_err() {
            return taken;
        }
    }
    most
}
