//! Late intervals, filled one after the other.

ghost use Rattle.std.specs.Prelude.{◌≡◌, None, IfErr, IfOk, OnOk};
ghost use Rattle.intervals.specs.declared.interval.Interval.{Interval as AnInterval};
ghost use Rattle.history_items.specs.Fills.{in_flight};
ghost use Rattle.load_session.specs.Filling.{AllLateFilled, IsBegunTask, IsFilledOn, IsFillingRefusal, IsTaskFilled, IsTaskRefusal};

use arch_disk::Disk;
use archive_store::{FillTask, Filled, Store};
use refusals::Refusal;
use std::alloc::Global;

/// Fills the interval of a task that just began. Refused, it has given the task up.
fn fill_task<D: Disk>(alloc: Global, store: &mut Store<D>, task: FillTask) -> Result<(), Refusal>
    requires { IsBegunTask D.device store.old task }
    ensures filled { OnOk result (IsTaskFilled D.device store.old store.new task) }
    ensures refused { IfErr result (IsTaskRefusal D.device store.old store.new task) }
    ensures same { (store.new.head ≡ store.old.head) × (store.new.exponent ≡ store.old.exponent)
        × (store.new.opened ≡ store.old.opened) × (store.new.sealed ≡ store.old.sealed) }
{
    let filled = match Filled::of(alloc, task, store.mdb()) {
        Ok(filled) => filled,
        Err((task, _)) => {
            store.abandon(task);
            return Err(Refusal::OutOfMemory);
        }
    };
    // No row came since the task's base, which is the whole history.
    let _ = store.install(filled)?;
    Ok(())
}

/// Fills each late interval, and tells how many there were. Refuses by `NeedsReopen`, `Limit` Records, `OutOfMemory`,
/// `DiskFault` or `Damaged` at the first that can't be filled; those before it stay filled. A write that failed stays
/// pending: what comes behind the fills takes it back.
pub fn fill_late<D: Disk>(alloc: Global, store: &mut Store<D>) -> Result<u64, Refusal>
    requires { (i : AnInterval) → in_flight i store.old.fills ≡ None }

    // Ok: no interval is late.
    ensures filled { IfOk result (AllLateFilled D.device store.old store.new) }

    // Refused: a failed write is pending, there's no place for a record for each late interval, no memory, the disk
    // failed, or rows aren't read.
    ensures refused { IfErr result (IsFillingRefusal D.device store.old store.new) }

    // The rows stay, and each fill that came is that of a late interval, whatever it answers; where none was late all is as it
    // was.
    ensures left { IsFilledOn D.device store.old store.new }
{
    let mut filled = 0;
    'fills: loop {
        store.is_kept();
        let Some(task) = store.begin(alloc)? else {
            return Ok(filled);
        };
        fill_task(alloc, store, task)?;
        filled += 1;
    }
}
