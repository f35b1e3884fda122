//! What an archive of made packets holds.

ghost use Rattle.std.specs.Prelude.{◌≡◌, ℕ, ◌++◌, ◌<◌, ◌≤◌, List, [], length, true, IfErr, IfOk, IsSome};
ghost use Rattle.text_forms.specs.Names.{is_name};
ghost use Rattle.asks.specs.Names.{parameter_number};
ghost use Rattle.history_items.specs.Databases.{database_in};
ghost use Rattle.archive_store.specs.Pages.{HasPages, TellsRows};
ghost use Rattle.archive_store.specs.StoreView.{filled_of};
ghost use Rattle.archive_store.specs.UnreadRows.{IsLeftByAnswer, IsReadRefusal};
ghost use Rattle.command_runs.specs.Reading.{WasRead};
ghost use Rattle.line_buffer.specs.LineRoom.{HasLineRoom};
ghost use Rattle.line_buffer.specs.Printed.{PrintsText};
ghost use Rattle.make_command.specs.Summary.{cell_count, make_line, summary_text, whole_request};
ghost use Rattle.make_command.specs.Summing.{AreCellCounts, IsSummaryReply, IsSummedUp, KnowsParameters, count_lines, counts_behind, made_counts_of, summary_report};

use arch_disk::Disk;
use arch_types::direction::Direction;
use arch_types::name::Name;
use arch_types::steps::Steps;
use archive_commands::verify::put_sound;
use archive_store::Store;
use archive_verify::{Sound, verify};
use asks::Request;
use command_runs::finishing::finish;
use command_runs::report::{LoadCounts, Report};
use line_buffer::LineBuffer;
use live_session::DumpCounts;
use load_command::reports::stopped;
use outer_traits::print_fault::PrintFault;
use outer_traits::sink::Sink;
use refusals::Refusal;
use retrieval::answer::answer_request;
use script_answers::statements::print_records;
use std::alloc::{AllocError, Global};
use std::marker::Brand;
use std::sync::ledger::{Blank, Ledger};
use text_forms::LAST_CLOCK_TIME;

/// Compares what is stored of an archive with what its rows give, and prints what it holds, or says why not.
pub(crate) fn sum_up<D: Disk, K: Sink>(
    alloc: Global,
    seed: u32,
    dumps: DumpCounts,
    store: &mut Store<D>,
    line_buffer: LineBuffer,
    sink: &mut K,
) -> Report
    requires empty { line_buffer ≡ [] }
    requires counts { length store.old.history ≤ dumps.routed }
    requires known { KnowsParameters (database_in store.old.head.mdb store.old.history) }
    ensures reply { TellsRows D.device store.old → IsSummaryReply (HasPages store.old) seed
        (counts_behind dumps (length store.old.history)) (filled_of store.old) result.refusal (K.state sink.old)
        (K.state sink.new) }
    ensures report { result ≡ summary_report result.refusal (length store.old.history)
        (counts_behind dumps (length store.old.history)) }
    ensures read { WasRead D.device store.old store.new result.refusal }
{
    let rows = store.front();
    let counts = LoadCounts {
        packets: dumps.packets,
        duplicates: dumps.routed - rows,
        idle: dumps.idle,
    };
    match print_summary(alloc, seed, counts, store, line_buffer, sink) {
        None => Report::loaded(None, None, 0, rows, counts),
        Some(refusal) => stopped(0, rows, None, refusal),
    }
}

/// Compares, counts the values of the parameters, and prints.
fn print_summary<D: Disk, K: Sink>(
    alloc: Global,
    seed: u32,
    counts: LoadCounts,
    store: &mut Store<D>,
    line_buffer: LineBuffer,
    sink: &mut K,
) -> Option<Refusal>
    requires empty { line_buffer ≡ [] }
    requires known { KnowsParameters (database_in store.old.head.mdb store.old.history) }
    ensures reply { TellsRows D.device store.old → IsSummaryReply (HasPages store.old) seed counts
        (filled_of store.old) result (K.state sink.old) (K.state sink.new) }
    ensures read { WasRead D.device store.old store.new result }
{
    store.is_kept();
    let sound = match verify(alloc, store) {
        Ok(sound) => sound,
        Err(refusal) => return Some(refusal),
    };
    let cells = match cell_counts::<D, Brand>(alloc, Blank::new(1), store) {
        Ok(cells) => cells,
        Err(refusal) => return Some(refusal),
    };
    let summed = Summed {
        seed,
        counts,
        sound,
        cells,
    };
    let mut line_buffer = line_buffer;
    match print_lines(alloc, summed, store, &mut line_buffer, sink) {
        Ok(()) => finish(line_buffer, sink),
        Err(fault) => Some(Refusal::from(fault)),
    }
}

/// What was counted of an archive.
#[derive(Clone, Copy, Debug)]
struct Summed {
    seed: u32,
    counts: LoadCounts,
    sound: Sound,
    cells: CellCounts,
}

/// How many values the parameters have.
#[derive(Clone, Copy, Debug)]
struct CellCounts {
    apid: u64,
    temp: u64,
    level: u64,
}

/// Counts the values of the parameters, whose steps are counted in one book.
fn cell_counts<D: Disk, L: Ledger>(
    alloc: Global,
    blank: Blank,
    store: &mut Store<D>,
) -> Result<CellCounts, Refusal>
    requires known { KnowsParameters (database_in store.old.head.mdb store.old.history) }
    requires blank { (blank.name ≡ L.name) × (blank.parts ≡ L.parts) × (0 < blank.parts) }
    ensures counts { TellsRows D.device store.old →
        IfOk result (λ counts. AreCellCounts (filled_of store.old) counts) }
    ensures refused { IfErr result (IsReadRefusal D.device store.old store.new) }
    ensures same { IsLeftByAnswer D.device store.old store.new result }
{
    let (book, share) = blank.open::<L>();
    let mut steps = Steps::new(book, share);
    Ok(CellCounts {
        apid: cell_count(alloc, b"apid", store, &mut steps)?,
        temp: cell_count(alloc, b"temp", store, &mut steps)?,
        level: cell_count(alloc, b"level", store, &mut steps)?,
    })
}

/// Counts the values of a parameter that the database has.
fn cell_count<D: Disk, L: Ledger>(
    alloc: Global,
    name: &[u8],
    store: &mut Store<D>,
    steps: &mut Steps<L>,
) -> Result<u64, Refusal>
    requires name { is_name name.now ≡ true }
    requires known { IsSome (parameter_number (database_in store.old.head.mdb store.old.history) name.now) }
    ensures count { TellsRows D.device store.old →
        IfOk result (λ count. count ≡ cell_count (filled_of store.old) name.now) }
    ensures refused { IfErr result (IsReadRefusal D.device store.old store.new) }
    ensures same { IsLeftByAnswer D.device store.old store.new result }
{
    let request = whole_request(alloc, name)?;
    let found = store.find(request)?;
    let answer = answer_request(alloc, store, &found, steps)?;
    Ok(answer.cells.len() as u64)
}

/// The request for all values of a parameter.
fn whole_request(alloc: Global, name: &[u8]) -> Result<Request, AllocError>
    requires { is_name name.now ≡ true }
    ensures { IfOk result (λ request. request ≡ whole_request name.now) }
{
    Ok(Request {
        parameter: Name::copy_of(alloc, name)?,
        from: 0,
        to: LAST_CLOCK_TIME,
        direction: Direction::Ascending,
        limit: None,
    })
}

/// Prints all lines, of which the end may still be buffered.
fn print_lines<D: Disk, K: Sink>(
    alloc: Global,
    summed: Summed,
    store: &Store<D>,
    line_buffer: &mut LineBuffer,
    sink: &mut K,
) -> Result<(), PrintFault>
    requires empty { line_buffer.old ≡ [] }
    // The text is the summary of an archive of which this was counted.
    ensures { (text : List ℕ) ×
        (IsSummedUp (filled_of store.now) summed.sound summed.cells →
        text ≡ summary_text summed.seed summed.counts.packets summed.counts.duplicates (filled_of store.now))
        × PrintsText result (K.state sink.old) (K.state sink.new) text line_buffer.new }
{
    store.is_kept();
    let Ok(names) = store.names(alloc) else {
        return Err(PrintFault::OutOfMemory);
    };
    put_made(line_buffer, summed.seed, summed.counts, summed.sound);
    put_cells(line_buffer, summed.cells);
    line_buffer.flush_if_full(sink)?;
    print_records(alloc, 0, &names, store, line_buffer, sink)?;
    put_sound(line_buffer, summed.sound);
    line_buffer.flush_if_full(sink)?;
    Ok(())
}

/// Adds the line of what was made.
fn put_made(line_buffer: &mut LineBuffer, seed: u32, counts: LoadCounts, sound: Sound)
    requires { line_buffer.old ≡ [] }
    ensures made { line_buffer.new ≡ make_line seed (made_counts_of counts sound) }
    ensures room { HasLineRoom line_buffer.new }
{
    line_buffer.put_number(b"make ", seed);
    line_buffer.put_number(b" packets ", counts.packets);
    line_buffer.put_number(b" rows ", sound.rows);
    line_buffer.put_number(b" duplicates ", counts.duplicates);
    line_buffer.put_number(b" intervals ", sound.intervals);
    line_buffer.put_number(b" late ", sound.late);
    line_buffer.put(b"\n");
}

/// Adds the lines of the parameters.
fn put_cells(line_buffer: &mut LineBuffer, cells: CellCounts)
    requires { HasLineRoom line_buffer.old }
    ensures { line_buffer.new ≡ line_buffer.old ++ count_lines cells }
{
    line_buffer.put_number(b"cells apid ", cells.apid);
    line_buffer.put_number(b"\ncells temp ", cells.temp);
    line_buffer.put_number(b"\ncells level ", cells.level);
    line_buffer.put(b"\n");
}
