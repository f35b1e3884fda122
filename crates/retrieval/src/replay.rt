//! The lines of a replay.

ghost use Rattle.std.specs.Prelude.{◌≡◌, ◌<◌, ◌^◌, ◌++◌, [], IfErr, IfOk, OnOk, length};
ghost use Rattle.arch_disk.specs.Disk.{NoFault};
ghost use Rattle.history_items.specs.Databases.{names_in};
ghost use Rattle.archive_store.specs.Finding.{IsReplayFound};
ghost use Rattle.archive_store.specs.Pages.{TellsRows};
ghost use Rattle.archive_store.specs.PrintFaults.{IsLeftByPrint, IsPrintFault, IsUnprinted};
ghost use Rattle.archive_store.specs.Replays.{rows_below};
ghost use Rattle.archive_store.specs.UnreadRows.{IsReadOn};
ghost use Rattle.line_buffer.specs.Printed.{BuffersText, PrintsRows};
ghost use Rattle.replay_merge.specs.Cursor.{steps_at_most, rest_of};
ghost use Rattle.retrieval.specs.ReplayText.{packet_lines, replay_lines, replay_text};
ghost use Rattle.line_buffer.specs.LineRoom.{HasLineRoom};

use crate::answer_text::{put_end, put_front};
use crate::packet_text::put_packet;
use arch_disk::Disk;
use arch_types::name::{Name, Names};
use arch_types::row::{Row, Rows};
use archive_store::print_faults::print_fault_of;
use archive_store::{FoundReplay, Store};
use line_buffer::LineBuffer;
use outer_traits::fault::Failed;
use outer_traits::print_fault::PrintFault;
use outer_traits::sink::Sink;
use replay_merge::cursor::Cursor;
use std::alloc::{AllocError, Global};

/// Prints the replay of a request over the whole history of a store in which its table was found, the ask with number
/// `k`. Rows are printed as they come, so no more than a day's are held. The end may still be buffered.
pub fn print_replay<D: Disk, K: Sink>(
    alloc: Global,
    k: u64,
    found: &FoundReplay,
    store: &mut Store<D>,
    line_buffer: &mut LineBuffer,
    sink: &mut K,
) -> Result<(), PrintFault>
    requires known { IsReplayFound store.old.head.tables found.now }
    requires room { HasLineRoom line_buffer.old }
    ensures printed { PrintsRows (TellsRows D.device store.old) result (K.state sink.old) (K.state sink.new)
        line_buffer.old (replay_text store.old.head store.old.history k found.now.request) line_buffer.new }
    ensures refused { IfErr result (IsPrintFault D.device store.old store.new) }
    ensures no_fault { OnOk result (NoFault D.device store.old.disk store.new.disk) }
    ensures same { IsReadOn D.device store.old store.new }
{
    let cursor = store.replay_open(alloc, found)?;
    let names = packet_names(alloc, store)?;
    put_front(line_buffer, k, cursor.front());
    line_buffer.flush_if_full(sink)?;
    let count = print_rest(
        alloc,
        &names,
        &found.request.table,
        cursor,
        store,
        line_buffer,
        sink,
    )?;
    put_end(line_buffer, count);
    line_buffer.flush_if_full(sink)?;
    Ok(())
}

/// The packet names of a store's history, in the order of their numbers.
fn packet_names<D: Disk>(alloc: Global, store: &Store<D>) -> Result<Names, AllocError>
    ensures { IfOk result (λ names. names ≡ names_in store.now.head.mdb store.now.history) }
{
    match store.names(alloc) {
        Ok(names) => Ok(names),
        Err(_) => Err(AllocError),
    }
}

/// Prints the rows that are left of a replay, of which the last may still be buffered, and counts them.
fn print_rest<D: Disk, K: Sink>(
    alloc: Global,
    names: &Names,
    table: &Name,
    cursor: Cursor,
    store: &mut Store<D>,
    line_buffer: &mut LineBuffer,
    sink: &mut K,
) -> Result<usize, PrintFault>
    requires room { HasLineRoom line_buffer.old }
    requires few { length (rest_of cursor (rows_below store.old.history)) < 2 ^ 64 }
    ensures printed { PrintsRows (TellsRows D.device store.old) result (K.state sink.old) (K.state sink.new)
        line_buffer.old (packet_lines names.now table.now (rest_of cursor (rows_below store.old.history)))
        line_buffer.new }
    ensures count { TellsRows D.device store.old → IfOk result (λ count.
        count ≡ length (rest_of cursor (rows_below store.old.history))) }
    ensures refused { IfErr result (IsPrintFault D.device store.old store.new) }
    ensures no_fault { OnOk result (NoFault D.device store.old.disk store.new.disk) }
    ensures same { IsReadOn D.device store.old store.new }
{
    let mut cursor = cursor;
    // A disk that doesn't tell what it holds may give any number of rows.
    let mut count = 0_usize;
    'steps: loop {
        let rows = next_rows(alloc, &mut cursor, store)?;
        if rows.len() == 0 {
            return Ok(count);
        }
        print_rows(names, table, rows.as_slice(), line_buffer, sink)?;
        count = count.saturating_add(rows.len());
    }
}

/// The next rows of a replay: those of a day. None are its end.
fn next_rows<D: Disk>(
    alloc: Global,
    cursor: &mut Cursor,
    store: &mut Store<D>,
) -> Result<Rows, PrintFault>
    ensures rows { TellsRows D.device store.old → IfOk result (λ rows.
        rows ++ rest_of cursor.new (rows_below store.old.history) ≡ rest_of cursor.old (rows_below store.old.history)) }
    ensures end { IfOk result (λ rows. rows ≡ [] → rest_of cursor.new (rows_below store.old.history) ≡ []) }
    ensures nearer { IfOk result (λ rows. (rows ≡ [] → ⊥) → steps_at_most cursor.new < steps_at_most cursor.old) }
    ensures refused { IfErr result (IsUnprinted D.device store.old store.new) }
    ensures same { IsLeftByPrint D.device store.old store.new result }
{
    match store.replay_step(alloc, cursor, u64::MAX) {
        Ok(rows) => Ok(rows),
        Err(fault) => Err(print_fault_of(fault)),
    }
}

/// Prints the lines of rows of a table, of which the last may still be buffered.
fn print_rows<K: Sink>(
    names: &Names,
    table: &Name,
    rows: &[Row],
    line_buffer: &mut LineBuffer,
    sink: &mut K,
) -> Result<(), Failed>
    requires { HasLineRoom line_buffer.old }
    ensures { BuffersText result (K.state sink.old) (K.state sink.new)
        (line_buffer.old ++ packet_lines names.now table.now rows.now) line_buffer.new }
{
    for row in rows {
        put_packet(line_buffer, names, table, row);
        line_buffer.flush_if_full(sink)?;
    }
    Ok(())
}

/// Prints the rows that a replay of the first `front` items of a history gave, the ask with number `k`. The end may
/// still be buffered.
pub fn print_replayed<K: Sink>(
    k: u64,
    front: u64,
    names: &Names,
    table: &Name,
    rows: &[Row],
    line_buffer: &mut LineBuffer,
    sink: &mut K,
) -> Result<(), Failed>
    requires { HasLineRoom line_buffer.old }
    ensures { BuffersText result (K.state sink.old) (K.state sink.new)
        (line_buffer.old ++ replay_lines k front names.now table.now rows.now) line_buffer.new }
{
    put_front(line_buffer, k, front);
    line_buffer.flush_if_full(sink)?;
    print_rows(names, table, rows, line_buffer, sink)?;
    put_end(line_buffer, rows.len());
    line_buffer.flush_if_full(sink)
}
