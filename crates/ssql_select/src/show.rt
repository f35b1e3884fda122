//! What SHOW prints.

ghost use Rattle.std.specs.Prelude.{◌≡◌, ◌++◌, flat_map, codes, decimal, IfOk, IfErr, IfSome, OnOk};
ghost use Rattle.replay_merge.specs.RowSource.{AreRowsOf, IsKeyedRow, IsRowFault, UsedRowSource};
ghost use Rattle.time_text.specs.Day.{day_of};
ghost use Rattle.time_text.specs.Spelling.{day_name_of};
ghost use Rattle.line_buffer.specs.LineRoom.{HasLineRoom};
ghost use Rattle.line_buffer.specs.Printed.{PrintsText};
ghost use Rattle.ssql_select.specs.SelectionText as text;
ghost use Rattle.ssql_select.specs.ShowText as spec;

use crate::printing::print_octets;
use crate::values::{gentime, pname_of, put, put_digits};
use arch_types::name::Names;
use arch_types::row::Row;
use arch_types::row_fault::RowFault;
use arch_types::spans::Span;
use itoa::Integer;
use line_buffer::LineBuffer;
use outer_traits::print_fault::PrintFault;
use outer_traits::sink::Sink;
use partitions::partition::Partition;
use replay_merge::row_source::RowSource;
use std::alloc::{AllocError, Global};
use time_text::{day_octets, day_of};

/// A line of SHOW. Packet names stand in it by their numbers.
#[derive(Clone, Copy, Debug)]
pub enum ShowLine {
    /// The day `YYYY/DOY` of a partition, and how many rows it has.
    Partition { day: [u8; 8], pname: u16, rows: u64 },
    /// A record of a packet name.
    Histogram { pname: u16, span: Span },
}

/// The name of the day of a row.
fn day_name(row: &Row) -> [u8; 8]
    requires { IsKeyedRow row.now }
    ensures { result ≡ day_name_of (day_of row.now.key.time) }
{
    let time = gentime(row);
    let day = day_of(time);
    day_octets(day)
}

/// Adds a partition with its rows, where it has any.
fn add_partition(
    lines: &mut Vec<ShowLine>,
    table: u8,
    partition: &Partition,
    rows: &[Row],
) -> Result<(), AllocError>
    requires { AreRowsOf table partition.now rows.now }
    ensures { OnOk result (lines.new.items ≡ lines.old.items ++ spec.line_of_rows partition.now rows.now) }
{
    if rows.is_empty() {
        return Ok(());
    }
    let day = day_name(&rows[0]);
    lines.push(ShowLine::Partition {
        day,
        pname: partition.pname,
        rows: rows.len() as u64,
    })?;
    Ok(())
}

/// How many rows some partitions of a table have below a front, in the order in which the partitions stand; those without
/// rows are left out. Refused as a source refuses.
pub fn partition_lines<R: RowSource>(
    alloc: Global,
    source: &mut R,
    table: u8,
    parts: &[Partition],
    front: u64,
) -> Result<Vec<ShowLine>, RowFault>
    ensures lines { IfOk result (λ lines. IfSome (R.state source.old).history (λ history.
        lines.items ≡ spec.partition_lines table (history front) parts.now)) }
    ensures refused { IfErr result (IsRowFault (R.state source.old) (R.state source.new)) }
    ensures no_fault { OnOk result ((R.state source.new).faults ≡ (R.state source.old).faults) }
    ensures source { UsedRowSource (R.state source.old) (R.state source.new) }
    ensures left { R.leaves source.old source.new }
{
    let mut lines = Vec::new(alloc);
    for partition in parts {
        let rows = source.rows(alloc, table, partition, front)?;
        add_partition(&mut lines, table, partition, rows.as_slice())?;
    }
    Ok(lines)
}

/// Adds a number behind a space.
fn put_spaced_digits<I: Integer>(line: &mut Vec<u8>, number: I) -> Result<(), AllocError>
    ensures { OnOk result (line.new.items ≡ line.old.items ++ codes " " ++ I.text number) }
{
    put(line, b" ")?;
    put_digits(line, number)
}

/// Adds a number behind a space, and the line's end.
fn put_last(line: &mut Vec<u8>, number: u64) -> Result<(), AllocError>
    ensures { OnOk result (line.new.items ≡ line.old.items ++ codes " " ++ decimal number ++ codes "\n") }
{
    put_spaced_digits(line, number)?;
    put(line, b"\n")
}

/// Adds the times of a record and how many rows it has, and the line's end.
fn put_span(line: &mut Vec<u8>, span: Span) -> Result<(), AllocError>
    ensures { OnOk result (line.new.items ≡ line.old.items ++ spec.span_text span) }
{
    put_spaced_digits(line, span.first)?;
    put_spaced_digits(line, span.last)?;
    put_last(line, span.count)
}

/// Adds a word, what stands behind it, and a packet name.
fn put_named(line: &mut Vec<u8>, word: &[u8], names: &Names, pname: u16) -> Result<(), AllocError>
    ensures { OnOk result (line.new.items ≡ line.old.items ++ word.now ++ text.pname_of names.now pname) }
{
    put(line, word)?;
    put(line, pname_of(names, pname))
}

/// Adds the day of a partition.
fn put_day(line: &mut Vec<u8>, day: &[u8]) -> Result<(), AllocError>
    ensures { OnOk result (line.new.items ≡ line.old.items ++ codes "partition " ++ day.now) }
{
    put(line, b"partition ")?;
    put(line, day)
}

/// Adds a line.
fn put_line(line: &mut Vec<u8>, names: &Names, shown: &ShowLine) -> Result<(), AllocError>
    ensures { OnOk result (line.new.items ≡ line.old.items ++ spec.show_line names.now shown.now) }
{
    match shown {
        ShowLine::Partition { day, pname, rows } => {
            put_day(line, day)?;
            put_named(line, b" ", names, *pname)?;
            put_last(line, *rows)
        }
        ShowLine::Histogram { pname, span } => {
            put_named(line, b"histogram ", names, *pname)?;
            put_span(line, *span)
        }
    }
}

/// Prints lines, each written in a line that is used again; the end may still be buffered.
pub fn print_lines<K: Sink>(
    names: &Names,
    lines: &[ShowLine],
    line: &mut Vec<u8>,
    line_buffer: &mut LineBuffer,
    sink: &mut K,
) -> Result<(), PrintFault>
    requires room { HasLineRoom line_buffer.old }
    ensures { PrintsText result (K.state sink.old) (K.state sink.new)
        (line_buffer.old ++ flat_map (spec.show_line names.now) lines.now) line_buffer.new }
{
    for shown in lines {
        line.clear();
        put_line(line, names, shown)?;
        print_octets(line.as_slice(), line_buffer, sink)?;
    }
    Ok(())
}

/// Adds the last line: how many stand before it.
fn put_end(line: &mut Vec<u8>, count: usize) -> Result<(), AllocError>
    ensures { OnOk result (line.new.items ≡ line.old.items ++ spec.show_end count) }
{
    put(line, b"show ")?;
    put_digits(line, count)?;
    put(line, b"\n")
}

/// Prints the last line.
fn print_end<K: Sink>(
    count: usize,
    line: &mut Vec<u8>,
    line_buffer: &mut LineBuffer,
    sink: &mut K,
) -> Result<(), PrintFault>
    requires room { HasLineRoom line_buffer.old }
    ensures { PrintsText result (K.state sink.old) (K.state sink.new) (line_buffer.old ++ spec.show_end count)
        line_buffer.new }
{
    line.clear();
    put_end(line, count)?;
    print_octets(line.as_slice(), line_buffer, sink)
}

/// Prints lines and how many there are, of which the end may still be buffered.
pub fn print_show<K: Sink>(
    alloc: Global,
    names: &Names,
    lines: &[ShowLine],
    line_buffer: &mut LineBuffer,
    sink: &mut K,
) -> Result<(), PrintFault>
    requires room { HasLineRoom line_buffer.old }
    ensures { PrintsText result (K.state sink.old) (K.state sink.new)
        (line_buffer.old ++ spec.show_text names.now lines.now) line_buffer.new }
{
    let mut line = Vec::new(alloc);
    print_lines(names, lines, &mut line, line_buffer, sink)?;
    print_end(lines.len(), &mut line, line_buffer, sink)
}
