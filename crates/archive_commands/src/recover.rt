//! The command `recover`: late intervals, filled.

ghost use Rattle.std.specs.Prelude.{◌≡◌, ◌++◌, [], IsTrue, codes, decimal};
ghost use Rattle.command_plans.specs.Plan.{IsDue};
ghost use Rattle.command_runs.specs.Command.{Ran, effects_of};
ghost use Rattle.command_runs.specs.Report.{status_at};
ghost use Rattle.archive_commands.specs.Recover.{recover_plan};

use arch_disk::Disk;
use archive_store::Store;
use command_runs::archive_work::{ArchiveWork, with_archive};
use command_runs::finishing::finish;
use command_runs::report::{Ended, Report};
use line_buffer::LineBuffer;
use load_session::fill_late;
use outer_traits::sink::Sink;
use std::alloc::Global;

/// Opens the archive of a disk, fills each late interval, and prints how many rows there are and how many intervals it
/// filled. Room for the line is taken before.
///
/// Refuses, in this order: by `DiskFault`, `NoArchive` or `Damaged`; fill by fill by `DiskFault` where rows aren't
/// read, by `Limit` Records or by `DiskFault`; by `WriteFault`. `OutOfMemory` may come anywhere before the line. What
/// was filled before a refusal stays filled, and where no interval is late the disk is left as it was. A write that
/// failed is taken back before it ends, as far as the disk lets it.
pub fn recover<D: Disk, K: Sink>(alloc: Global, disk: D, sink: &mut K) -> Ended<D>
    // It took a way through its plan: where that ends stands what was printed, what became of the disk, what is reported,
    // and which calls failed.
    ensures ran { Ran D.device (recover_plan D.device disk) (effects_of disk result.disk (K.state sink.old)
        (K.state sink.new) result.report) }

    // Where the disk is transparent the answer that is due comes, or that of an interruption at its place.
    ensures due { IsTrue D.device.is_transparent → IsDue (recover_plan D.device disk) result.report.refusal }

    // The number of the refusal, and 0 exactly where there's none.
    ensures status { result.status ≡ status_at result.report.refusal }
{
    Ended::of_work(with_archive(alloc, disk, sink, Recovering))
}

/// The filling of late intervals, as a work with an archive.
#[derive(Drop)]
struct Recovering;

impl ArchiveWork for Recovering {
    ghost use Rattle.archive_commands.specs.Recover.{recovering_plan};

    ghost plan = { λ work known found. recovering_plan known found };

    fn work<D: Disk, K: Sink>(
        self,
        alloc: Global,
        store: Store<D>,
        line_buffer: LineBuffer,
        sink: &mut K,
    ) -> (Store<D>, Report) {
        let mut store = store;
        let mut line_buffer = line_buffer;
        store.is_kept();
        let front = store.front();
        let rows = store.row_count();
        match fill_late(alloc, &mut store) {
            Ok(filled) => {
                put_recovered(&mut line_buffer, rows, filled);
                let refusal = finish(line_buffer, sink);
                (store, Report::read_only(refusal, front))
            }
            Err(refusal) => (store, Report::read_only(Some(refusal), front)),
        }
    }
}

/// Adds the line of a recovered archive.
fn put_recovered(line_buffer: &mut LineBuffer, rows: u64, filled: u64)
    requires { line_buffer.old ≡ [] }
    ensures { line_buffer.new ≡ codes "recovered rows " ++ decimal rows ++ codes " filled " ++ decimal filled
        ++ codes "\n" }
{
    line_buffer.put_number(b"recovered rows ", rows);
    line_buffer.put_number(b" filled ", filled);
    line_buffer.put(b"\n");
}
