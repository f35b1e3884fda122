//! The text of a selection.

ghost use Rattle.std.specs.Prelude.{◌≡◌, ◌++◌, flat_map};
ghost use Rattle.std.specs.List.{AllByRecursion};
ghost use Rattle.replay_merge.specs.RowSource.{IsKeyedRow};
ghost use Rattle.line_buffer.specs.LineRoom.{HasLineRoom};
ghost use Rattle.line_buffer.specs.Printed.{PrintsText};
ghost use Rattle.ssql_select.specs.SelectionText.{selected_line, selection_lines, select_line};

use crate::printing::print_octets;
use crate::values::{put_select_line, put_selected};
use arch_types::name::Names;
use arch_types::row::Row;
use line_buffer::LineBuffer;
use outer_traits::print_fault::PrintFault;
use outer_traits::sink::Sink;
use ssql_tokens::Column;
use std::alloc::Global;
use std::marker::Model;

/// What a query selects, and how it is written. It's held as rows, which share their packets with the archive (D-190).
#[derive(Drop)]
pub struct SelectionText<'a> {
    columns: &'a [Column],
    names: &'a Names,
    rows: Vec<Row>,
}

impl<'a> Model for SelectionText<'a> {
    ghost use Rattle.std.specs.Prelude.{List, ℕ};
    ghost use Rattle.std.specs.List.{AllByRecursion};
    ghost use Rattle.replay_merge.specs.RowSource.{IsKeyedRow};
    ghost use Rattle.ssql_select.specs.SelectionText.{selection_lines};

    ghost Value = { List ℕ };

    ghost view = { λ s. selection_lines s.names.now s.columns.now s.rows.items };

    ghost invariant = { λ s. AllByRecursion IsKeyedRow s.rows.items };
}

impl<'a> SelectionText<'a> {
    /// The text of rows in some columns.
    pub(crate) fn of(columns: &'a [Column], names: &'a Names, rows: Vec<Row>) -> Self
        requires { AllByRecursion IsKeyedRow rows.items }
        ensures { result ≡ selection_lines names.now columns.now rows.items }
    {
        SelectionText {
            columns,
            names,
            rows,
        }
    }

    /// Prints the text, line after line, of which the end may still be buffered. No more than a line is in memory.
    pub fn print<K: Sink>(
        &self,
        alloc: Global,
        line_buffer: &mut LineBuffer,
        sink: &mut K,
    ) -> Result<(), PrintFault>
        requires room { HasLineRoom line_buffer.old }
        ensures { PrintsText result (K.state sink.old) (K.state sink.new) (line_buffer.old ++ self.now) line_buffer.new }
    {
        let rows = self.rows.as_slice();
        let mut line = Vec::new(alloc);
        print_rows(self.columns, self.names, rows, &mut line, line_buffer, sink)?;
        print_count(rows.len(), &mut line, line_buffer, sink)
    }
}

/// Prints the lines of rows, each written in a line that is used again.
fn print_rows<K: Sink>(
    columns: &[Column],
    names: &Names,
    rows: &[Row],
    line: &mut Vec<u8>,
    line_buffer: &mut LineBuffer,
    sink: &mut K,
) -> Result<(), PrintFault>
    requires room { HasLineRoom line_buffer.old }
    requires keyed { AllByRecursion IsKeyedRow rows.now }
    ensures { PrintsText result (K.state sink.old) (K.state sink.new)
        (line_buffer.old ++ flat_map (selected_line names.now columns.now) rows.now) line_buffer.new }
{
    for row in rows {
        line.clear();
        put_selected(line, names, columns, row)?;
        print_octets(line.as_slice(), line_buffer, sink)?;
    }
    Ok(())
}

/// Prints the last line: how many rows there are.
fn print_count<K: Sink>(
    count: usize,
    line: &mut Vec<u8>,
    line_buffer: &mut LineBuffer,
    sink: &mut K,
) -> Result<(), PrintFault>
    requires room { HasLineRoom line_buffer.old }
    ensures { PrintsText result (K.state sink.old) (K.state sink.new) (line_buffer.old ++ select_line count)
        line_buffer.new }
{
    line.clear();
    put_select_line(line, count)?;
    print_octets(line.as_slice(), line_buffer, sink)
}
