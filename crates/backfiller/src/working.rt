//! The work of a filler.

ghost use Rattle.std.specs.Prelude.{IfOk, IfErr};
ghost use Rattle.backfiller.specs.Work.{IsWorkDone, IsWorkRefused};

use crate::target::FillTarget;
use arch_types::inserted::Installed;
use outer_traits::gate::Gate;
use refusals::Refusal;
use std::sync::Wait;

/// Begins fills and hands their tasks to an install, one after the other, until a begin gives none, and tells how many
/// were installed. It passes the gate before each call, and waits where its target waits.
pub fn work<R: Wait, T: FillTarget, G: Gate>(
    rt: &R,
    target: &mut T,
    gate: &G,
    job: u32,
) -> Result<u64, Refusal>
    // Ok: its last begin gave none, and each task that the others gave was handed to an install.
    ensures done { IfOk result (IsWorkDone T.begins T.installs target.old target.new) }

    // Refused: the last call of the target, a begin or an install, answered just that.
    ensures refused { IfErr result (IsWorkRefused T.begins T.installs target.old target.new) }
{
    let mut installed: u64 = 0;
    let mut turn: u64 = 0;
    for _ in rt.forever() {
        turn = turn.saturating_add(1);
        gate.pass(job, turn);
        let Some(task) = target.begin()? else {
            return Ok(installed);
        };
        turn = turn.saturating_add(1);
        gate.pass(job, turn);
        match target.install(task)? {
            Installed::Done => installed = installed.saturating_add(1),
            Installed::Stale { .. } => {}
        }
    }
    unreachable!()
}
