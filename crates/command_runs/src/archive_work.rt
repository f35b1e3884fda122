//! The way from a disk to the archive that stands on it, and back.

ghost use Rattle.std.specs.Prelude.{◌≡◌, ℕ, []};
ghost use Rattle.archive_store.specs.Entries.{FilledArchive};
ghost use Rattle.archive_store.specs.Keeping.{IsKept};
ghost use Rattle.archive_store.specs.StoreView.{StoreView, filled_of};
ghost use Rattle.command_plans.specs.Plan.{CommandPlan};
ghost use Rattle.command_runs.specs.ArchiveWork.{KnownOfDisk, known_of, opened_plan};
ghost use Rattle.command_runs.specs.Command.{Progress, Ran, effects_of};
ghost use Rattle.command_runs.specs.Healing.{TriesToHeal};
ghost use Rattle.command_runs.specs.Opened.{IsOpenedOn, WasOpened};
ghost use Rattle.command_runs.specs.Report.{disk_of_work, report_of_work};

use crate::healing::heal;
use crate::report::Report;
use arch_disk::Disk;
use archive_store::Store;
use line_buffer::LineBuffer;
use outer_traits::sink::Sink;
use refusals::Refusal;
use std::alloc::Global;

/// What a command does with an archive that was opened.
pub trait ArchiveWork: Drop {
    /// Its plan behind the opening, over the archive that was found, by what is known of the disk.
    ghost plan: { Self → KnownOfDisk → FilledArchive → CommandPlan Progress ⊥ };

    /// Does it over the store of an archive that was opened, with room for a line, gives the store back, and reports. A
    /// write that failed may still be pending then: it is taken back behind each work.
    fn work<D: Disk, K: Sink>(
        self,
        alloc: Global,
        store: Store<D>,
        line_buffer: LineBuffer,
        sink: &mut K,
    ) -> (Store<D>, Report)
        requires line { line_buffer ≡ [] }
        requires opened { WasOpened D.device store }

        // Whichever disk it was opened on, and whatever taking a failed write back leaves: it took a way through its
        // plan, and did what is said where that ends. What a store keeps is given.
        ensures { (disk : D) (healed : StoreView D) → IsOpenedOn D.device disk store →
            TriesToHeal D.device result.0 healed → IsKept D.device healed →
            Ran D.device (plan self (known_of D.device disk) (filled_of store))
            (effects_of disk healed.disk (K.state sink.old) (K.state sink.new) result.1) };
}

/// Takes room for a line, opens the archive of a disk, does a command's work with it, takes back a write that failed, and
/// gives the disk back.
pub fn with_archive<D: Disk, K: Sink, W: ArchiveWork>(
    alloc: Global,
    disk: D,
    sink: &mut K,
    work: W,
) -> Result<(D, Report), (D, Refusal)>
    // However many sources were given before, it took a way through its plan: an opening, and behind that the work's.
    ensures { (sources : ℕ) → Ran D.device (opened_plan sources D.device disk (W.plan work)) (effects_of disk
        (disk_of_work result) (K.state sink.old) (K.state sink.new) (report_of_work result)) }
{
    let Ok(line_buffer) = LineBuffer::new(alloc) else {
        return Err((disk, Refusal::OutOfMemory));
    };
    let store = Store::open(alloc, disk)?;
    let (mut store, report) = work.work(alloc, store, line_buffer, sink);
    heal(&mut store);
    store.is_kept();
    Ok((store.into_disk(), report))
}
