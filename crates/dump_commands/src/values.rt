//! The command `values`: the cells of a parameter over a dump, as text.

ghost use Rattle.std.specs.Prelude.{◌≡◌, ◌<◌, ◌≤◌, ◌+◌, ◌^◌, ◌++◌, [], IfOk, IsSome, length};
ghost use Rattle.std.specs.List.{AllByRecursion};
ghost use Rattle.std.specs.Result.{result_err};
ghost use Rattle.command_plans.specs.Ledger.{UsedClock};
ghost use Rattle.command_plans.specs.Plan.{IsDue};
ghost use Rattle.arch_types.specs.Table.{sorted};
ghost use Rattle.yarch_table.specs.Stored.{rows_of};
ghost use Rattle.command_words.specs.JobView.{words_of};
ghost use Rattle.line_buffer.specs.Printed.{PrintsText};
ghost use Rattle.dump_lines.specs.DumpTable.{IsVisible};
ghost use Rattle.command_runs.specs.Command.{RanOver, effects_of};
ghost use Rattle.command_runs.specs.Report.{status_at, unopened};
ghost use Rattle.dump_commands.specs.Values.{values_plan};
ghost use Rattle.dump_commands.specs.ValuesPrinting.{line_of, cells_in_row, cells_of_stored, lines_of_cells, end_of_cells, text_of_cells};
ghost use Rattle.line_buffer.specs.LineRoom.{HasLineRoom};

use crate::scan_input::{ended, read_scan_input};
use arch_disk::Disk;
use arch_types::row::Row;
use arch_types::steps::Steps;
use command_runs::report::Ended;
use command_words::job::ValuesWords;
use container_extract::Extractor;
use dump_lines::receiving::Received;
use dump_lines::table::DumpTable;
use line_buffer::LineBuffer;
use mdb_sheets::read_mdb;
use outer_traits::clock::Clock;
use outer_traits::inputs::Inputs;
use outer_traits::print_fault::PrintFault;
use outer_traits::sink::Sink;
use part_answers::cells::cell_of;
use refusals::Refusal;
use retrieval::cell_text::{put_cell, put_values};
use retrieval::cells::calibration_of;
use retrieval::parameter::{KnownParameter, known_parameter};
use space_packet::dump::Why;
use std::alloc::Global;
use std::marker::Brand;
use std::sync::ledger::{Blank, Ledger};
use yarch_table::table::Table;

/// Reads three sheets and a dump, and prints the cells of one parameter in key order, duplicates dropped.
pub fn values<D: Disk, I: Inputs, K: Sink, C: Clock>(
    alloc: Global,
    words: ValuesWords<'_>,
    disk: D,
    inputs: &mut I,
    sink: &mut K,
    clock: &mut C,
) -> Ended<D>
    // It took a way through its plan: where that ends stands what was printed, what is reported, how many sources were
    // given, and which calls failed. Nothing is asked of the disk.
    ensures ran { RanOver D.device
        (values_plan (I.state inputs.old).files (C.state clock.old).next (words_of words.entry))
        (effects_of disk result.disk (K.state sink.old) (K.state sink.new) result.report)
        (I.state inputs.old) (I.state inputs.new) }

    // Where the inputs are known the answer that is due comes, or that of an interruption at its place.
    ensures due { IsSome (I.state inputs.old).files →
        IsDue (values_plan (I.state inputs.old).files (C.state clock.old).next (words_of words.entry))
        result.report.refusal }

    // What is known of the clock stays known, and one that stands still goes on standing.
    ensures clock { UsedClock (C.state clock.old) (C.state clock.new) }

    // The number of the refusal, and 0 exactly where there's none.
    ensures status { result.status ≡ status_at result.report.refusal }
{
    let done = work::<D, I, K, C>(alloc, words, inputs, sink, clock);
    Ended::unopened(disk, done.err())
}

/// Does the command, beside whatever disk of the kind there is.
fn work<D: Disk, I: Inputs, K: Sink, C: Clock>(
    alloc: Global,
    words: ValuesWords<'_>,
    inputs: &mut I,
    sink: &mut K,
    clock: &mut C,
) -> Result<(), Refusal>
    ensures ran { (disk : D) →
        RanOver D.device (values_plan (I.state inputs.old).files (C.state clock.old).next (words_of words.entry))
        (effects_of disk disk (K.state sink.old) (K.state sink.new) (unopened (result_err result)))
        (I.state inputs.old) (I.state inputs.new) }
    ensures clock { UsedClock (C.state clock.old) (C.state clock.new) }
{
    let sheets = read_mdb(
        alloc,
        inputs,
        words.parameters,
        words.calibrations,
        words.containers,
    )?;
    let mut scan_input = read_scan_input::<I, C, DumpTable>(alloc, inputs, words.dump, clock)?;
    let known = known_parameter(alloc, &sheets, words.name)?;
    let line_buffer = &mut scan_input.line_buffer;
    match print::<K, Brand>(
        alloc,
        Blank::new(1),
        &known,
        &scan_input.received,
        line_buffer,
        sink,
    ) {
        Ok(()) => ended(scan_input.received.end),
        Err(fault) => Err(Refusal::from(fault)),
    }
}

/// Prints the cells in key order, whose steps are counted in one book, and where nothing is left of the dump how many
/// there are. Nothing stays buffered.
fn print<K: Sink, L: Ledger>(
    alloc: Global,
    blank: Blank,
    known: &KnownParameter,
    received: &Received<DumpTable>,
    line_buffer: &mut LineBuffer,
    sink: &mut K,
) -> Result<(), PrintFault>
    requires empty { line_buffer.old ≡ [] }
    requires shown { AllByRecursion IsVisible received.now.rows.table.stored }
    requires few { length (sorted (rows_of received.now.rows.table.stored)) < 2 ^ 64 }
    requires number { known.now.number < length known.now.mdb.parameters }
    requires blank { (blank.name ≡ L.name) × (blank.parts ≡ L.parts) × (0 < blank.parts) }
    ensures { PrintsText result (K.state sink.old) (K.state sink.new)
        (text_of_cells known.now.mdb known.now.number received.now.rows.table.stored received.now.end.why) [] }
{
    let (book, share) = blank.open::<L>();
    let mut steps = Steps::new(book, share);
    let count = print_cells(
        alloc,
        known,
        &received.rows.table,
        line_buffer,
        sink,
        &mut steps,
    )?;
    put_end(line_buffer, received.end.why, count);
    line_buffer.flush(sink)?;
    Ok(())
}

/// Adds the last line where nothing is left of the dump.
fn put_end(line_buffer: &mut LineBuffer, why: Why, count: u64)
    requires { HasLineRoom line_buffer.old }
    ensures { line_buffer.new ≡ line_buffer.old ++ end_of_cells why count }
{
    match why {
        Why::End => put_values(line_buffer, count),
        Why::Version | Why::Truncated => {}
    }
}

/// Prints the cells of a table's rows in key order, of which the last may still be buffered, and counts them.
fn print_cells<K: Sink, L: Ledger>(
    alloc: Global,
    known: &KnownParameter,
    table: &Table,
    line_buffer: &mut LineBuffer,
    sink: &mut K,
    steps: &mut Steps<L>,
) -> Result<u64, PrintFault>
    requires empty { line_buffer.old ≡ [] }
    requires shown { AllByRecursion IsVisible table.now.stored }
    requires few { length (sorted (rows_of table.now.stored)) < 2 ^ 64 }
    requires number { known.now.number < length known.now.mdb.parameters }
    ensures printed { PrintsText result (K.state sink.old) (K.state sink.new)
        (lines_of_cells known.now.mdb known.now.number table.now.stored) line_buffer.new }
    ensures count { IfOk result (λ count.
        count ≡ length (cells_of_stored known.now.mdb known.now.number table.now.stored)) }
    ensures steps { steps.new ≤ steps.old + length (sorted (rows_of table.now.stored)) }
{
    let mut extractor = Extractor::new(alloc)?;
    let mut count = 0;
    for row in table.rows_at(u64::MAX) {
        count += put_cell_of(&mut extractor, known, row, line_buffer, steps);
        line_buffer.flush_if_full(sink)?;
    }
    Ok(count)
}

/// Adds the line of the cell in the packet of a row, where there is one, and says how many there are.
fn put_cell_of<L: Ledger>(
    extractor: &mut Extractor,
    known: &KnownParameter,
    row: &Row,
    line_buffer: &mut LineBuffer,
    steps: &mut Steps<L>,
) -> u64
    requires room { HasLineRoom line_buffer.old }
    requires number { known.now.number < length known.now.mdb.parameters }
    ensures line { line_buffer.new ≡ line_buffer.old ++ line_of known.now.mdb known.now.number row.now }
    ensures count { result ≡ cells_in_row known.now.mdb known.now.number row.now }
    ensures step { steps.new ≡ steps.old + 1 }
{
    match cell_of(extractor, &known.mdb, known.number, row, steps) {
        None => 0,
        Some(cell) => {
            put_cell(line_buffer, cell, calibration_of(&known.mdb, known.number));
            1
        }
    }
}
