//! The command `scan`: the rows of a dump, as text.

ghost use Rattle.std.specs.Prelude.{◌≡◌, IsSome, ◌++◌, []};
ghost use Rattle.std.specs.Result.{result_err};
ghost use Rattle.command_plans.specs.Ledger.{UsedClock};
ghost use Rattle.command_plans.specs.Plan.{IsDue};
ghost use Rattle.line_buffer.specs.Printed.{BuffersText, WritesText};
ghost use Rattle.dump_lines.specs.Printing.{lines_of, end_of, text_of_index};
ghost use Rattle.command_runs.specs.Command.{RanOver, effects_of};
ghost use Rattle.command_runs.specs.Report.{status_at, unopened};
ghost use Rattle.dump_commands.specs.Scan.{scan_plan};
ghost use Rattle.line_buffer.specs.LineRoom.{HasLineRoom};

use crate::scan_input::{ended, read_scan_input};
use arch_disk::Disk;
use arch_types::key::Key;
use block_map::growing_index::GrowingIndex;
use command_runs::report::Ended;
use dump_lines::counts::Counts;
use dump_lines::index::DumpIndex;
use dump_lines::lines::{put_counts, put_row};
use dump_lines::receiving::Received;
use line_buffer::LineBuffer;
use outer_traits::clock::Clock;
use outer_traits::fault::Failed;
use outer_traits::inputs::Inputs;
use outer_traits::sink::Sink;
use refusals::Refusal;
use space_packet::dump::Why;
use std::alloc::Global;

/// Reads the dump of a name to its end piece by piece, and prints its rows in key order, duplicates dropped. All memory
/// is taken before the first write: a key and a length for each row.
pub fn scan<D: Disk, I: Inputs, K: Sink, C: Clock>(
    alloc: Global,
    name: &str,
    disk: D,
    inputs: &mut I,
    sink: &mut K,
    clock: &mut C,
) -> Ended<D>
    // It took a way through its plan: where that ends stands what was printed, what is reported, how many sources were
    // given, and which calls failed. Nothing is asked of the disk.
    ensures ran { RanOver D.device
        (scan_plan (I.state inputs.old).files (C.state clock.old).next name.now)
        (effects_of disk result.disk (K.state sink.old) (K.state sink.new) result.report)
        (I.state inputs.old) (I.state inputs.new) }

    // Where the inputs are known the answer that is due comes, or that of an interruption at its place.
    ensures due { IsSome (I.state inputs.old).files →
        IsDue (scan_plan (I.state inputs.old).files (C.state clock.old).next name.now) result.report.refusal }

    // What is known of the clock stays known, and one that stands still goes on standing.
    ensures clock { UsedClock (C.state clock.old) (C.state clock.new) }

    // The number of the refusal, and 0 exactly where there's none.
    ensures status { result.status ≡ status_at result.report.refusal }
{
    let done = work::<D, I, K, C>(alloc, name, inputs, sink, clock);
    Ended::unopened(disk, done.err())
}

/// Does the command, beside whatever disk of the kind there is.
fn work<D: Disk, I: Inputs, K: Sink, C: Clock>(
    alloc: Global,
    name: &str,
    inputs: &mut I,
    sink: &mut K,
    clock: &mut C,
) -> Result<(), Refusal>
    ensures ran { (disk : D) →
        RanOver D.device (scan_plan (I.state inputs.old).files (C.state clock.old).next name.now)
        (effects_of disk disk (K.state sink.old) (K.state sink.new) (unopened (result_err result)))
        (I.state inputs.old) (I.state inputs.new) }
    ensures clock { UsedClock (C.state clock.old) (C.state clock.new) }
{
    let mut scan_input = read_scan_input::<I, C, DumpIndex>(alloc, inputs, name, clock)?;
    match print(&scan_input.received, &mut scan_input.line_buffer, sink) {
        Ok(()) => ended(scan_input.received.end),
        Err(_) => Err(Refusal::WriteFault),
    }
}

/// Prints the rows in key order, and where nothing is left of the dump the counts.
fn print<K: Sink>(
    received: &Received<DumpIndex>,
    line_buffer: &mut LineBuffer,
    sink: &mut K,
) -> Result<(), Failed>
    requires empty { line_buffer.old ≡ [] }
    ensures { WritesText result (K.state sink.old) (K.state sink.new) (text_of_index received.now) }
{
    print_rows(&received.rows.lengths, line_buffer, sink)?;
    put_end(line_buffer, received.end.why, received.rows.counts);
    line_buffer.flush(sink)
}

/// Adds the counts where nothing is left of the dump.
fn put_end(line_buffer: &mut LineBuffer, why: Why, counts: Counts)
    requires { HasLineRoom line_buffer.old }
    ensures { line_buffer.new ≡ line_buffer.old ++ end_of why counts }
{
    match why {
        Why::End => put_counts(line_buffer, counts),
        Why::Version | Why::Truncated => {}
    }
}

/// Prints the rows of which an index has the keys and lengths, in key order. The last may still be buffered.
fn print_rows<K: Sink>(
    lengths: &GrowingIndex<Key, u32>,
    line_buffer: &mut LineBuffer,
    sink: &mut K,
) -> Result<(), Failed>
    requires empty { line_buffer.old ≡ [] }
    ensures { BuffersText result (K.state sink.old) (K.state sink.new) (lines_of lengths.now.entries) line_buffer.new }
{
    for entry in lengths.iter() {
        put_row(line_buffer, entry.0, entry.1);
        line_buffer.flush_if_full(sink)?;
    }
    Ok(())
}
