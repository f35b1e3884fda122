//! The command `verify`: whether what is stored of an archive's intervals is what their rows give.

ghost use Rattle.std.specs.Prelude.{◌≡◌, ◌++◌, [], IsTrue};
ghost use Rattle.line_buffer.specs.LineRoom.{HasLineRoom};
ghost use Rattle.command_plans.specs.Plan.{IsDue};
ghost use Rattle.command_runs.specs.Command.{Ran, effects_of};
ghost use Rattle.command_runs.specs.Report.{status_at};
ghost use Rattle.command_runs.specs.Reading.{WasRead};
ghost use Rattle.archive_commands.specs.Verify.{IsCompareReply, sound_line, verify_plan};

use arch_disk::Disk;
use archive_store::Store;
use archive_verify::Sound;
use command_runs::archive_work::{ArchiveWork, with_archive};
use command_runs::finishing::finish;
use command_runs::report::{Ended, Report};
use line_buffer::LineBuffer;
use outer_traits::sink::Sink;
use refusals::Refusal;
use std::alloc::Global;

/// Opens the archive of a disk, compares what is stored of its intervals with what their rows give, and prints how much
/// there is. Room for the line is taken before.
///
/// Refuses, in this order: by `DiskFault`, `NoArchive` or `Damaged`; by `DiskFault` where rows aren't read, or by
/// `Mismatch`; by `WriteFault`. `OutOfMemory` may come anywhere before the line.
pub fn verify<D: Disk, K: Sink>(alloc: Global, disk: D, sink: &mut K) -> Ended<D>
    // It took a way through its plan: where that ends stands what was printed, what became of the disk, what is reported,
    // and which calls failed.
    ensures ran { Ran D.device (verify_plan D.device disk) (effects_of disk result.disk (K.state sink.old)
        (K.state sink.new) result.report) }

    // Where the disk is transparent the answer that is due comes, or that of an interruption at its place.
    ensures due { IsTrue D.device.is_transparent → IsDue (verify_plan D.device disk) result.report.refusal }

    // The number of the refusal, and 0 exactly where there's none.
    ensures status { result.status ≡ status_at result.report.refusal }
{
    Ended::of_work(with_archive(alloc, disk, sink, Verifying))
}

/// The comparing of what is stored, as a work with an archive.
#[derive(Drop)]
struct Verifying;

impl ArchiveWork for Verifying {
    ghost use Rattle.archive_commands.specs.Verify.{compare_plan};

    ghost plan = { λ work known found. compare_plan known.Tells found };

    fn work<D: Disk, K: Sink>(
        self,
        alloc: Global,
        store: Store<D>,
        line_buffer: LineBuffer,
        sink: &mut K,
    ) -> (Store<D>, Report) {
        let mut store = store;
        let front = store.front();
        let refusal = compare(alloc, &mut store, line_buffer, sink);
        (store, Report::read_only(refusal, front))
    }
}

/// Compares, and prints the line of an archive that was found sound, or says why it wasn't.
fn compare<D: Disk, K: Sink>(
    alloc: Global,
    store: &mut Store<D>,
    line_buffer: LineBuffer,
    sink: &mut K,
) -> Option<Refusal>
    requires { line_buffer ≡ [] }
    ensures reply { IsCompareReply D.device store.old result (K.state sink.old) (K.state sink.new) }
    ensures read { WasRead D.device store.old store.new result }
{
    store.is_kept();
    match archive_verify::verify(alloc, store) {
        Ok(sound) => {
            let mut line_buffer = line_buffer;
            put_sound(&mut line_buffer, sound);
            finish(line_buffer, sink)
        }
        Err(refusal) => Some(refusal),
    }
}

/// Adds the line of a sound archive.
pub fn put_sound(line_buffer: &mut LineBuffer, sound: Sound)
    requires { HasLineRoom line_buffer.old }
    ensures { line_buffer.new ≡ line_buffer.old ++ sound_line sound.rows sound.intervals sound.late }
{
    line_buffer.put_number(b"sound rows ", sound.rows);
    line_buffer.put_number(b" intervals ", sound.intervals);
    line_buffer.put_number(b" late ", sound.late);
    line_buffer.put(b"\n");
}
