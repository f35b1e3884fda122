//! The answers of an archive to the statements of a script.

ghost use Rattle.std.specs.Prelude.{◌≡◌, ◌+◌, ◌<◌, ◌≤◌, ◌++◌, length, map, sum_by, IfOk, IfErr, OnOk};
ghost use Rattle.std.specs.List.{AllByRecursion};
ghost use Rattle.arch_disk.specs.Disk.{NoFault};
ghost use Rattle.archive_store.specs.Pages.{TellsRows};
ghost use Rattle.archive_store.specs.PrintFaults.{IsPrintFault};
ghost use Rattle.archive_store.specs.StoreView.{archive_of};
ghost use Rattle.archive_store.specs.Replays.{ArePartitions};
ghost use Rattle.archive_store.specs.UnreadRows.{IsReadOn, IsSourceFault};
ghost use Rattle.history_items.specs.Items.{rows_in};
ghost use Rattle.ssql_conditions.specs.ConditionBounds.{bounds_of};
ghost use Rattle.line_buffer.specs.Printed.{PrintsRows, PrintsText};
ghost use Rattle.ssql_select.specs.Selection.{HoldsSelected};
ghost use Rattle.ssql_select.specs.SelectionText.{selection_text};
ghost use Rattle.ssql_types.specs.Laws.{NamesTables};
ghost use Rattle.script_answers.specs.Statements as spec;
ghost use Rattle.line_buffer.specs.LineRoom.{HasLineRoom};

use arch_disk::Disk;
use arch_types::name::Names;
use arch_types::row_fault::RowFault;
use arch_types::spans::Span;
use arch_types::steps::Steps;
use archive_store::Store;
use archive_store::print_faults::print_fault_of;
use line_buffer::LineBuffer;
use outer_traits::print_fault::PrintFault;
use outer_traits::sink::Sink;
use partitions::bounds::Bounds;
use partitions::lists::PartList;
use refusals::Refusal;
use ssql_conditions::bounds::{all_bounds, bounds};
use ssql_select::select::select;
use ssql_select::selection_text::SelectionText;
use ssql_select::show::{ShowLine, partition_lines, print_lines, print_show};
use ssql_types::query::TypedSelect;
use ssql_types::statement::TypedStatement;
use std::alloc::{AllocError, Global};
use std::sync::ledger::Ledger;

/// Prints the answers to statements, of which the last may still be buffered.
pub fn answer_statements<D: Disk, K: Sink, L: Ledger>(
    alloc: Global,
    statements: &[TypedStatement],
    names: &Names,
    store: &mut Store<D>,
    line_buffer: &mut LineBuffer,
    sink: &mut K,
    steps: &mut Steps<L>,
) -> Result<(), PrintFault>
    requires names { names.now ≡ spec.packet_names store.old.head store.old.history }
    requires tables { AllByRecursion (NamesTables (length store.old.head.tables)) statements.now }
    requires room { HasLineRoom line_buffer.old }
    ensures printed { PrintsRows (TellsRows D.device store.old) result (K.state sink.old) (K.state sink.new)
        line_buffer.old (spec.statements_text (archive_of store.old) statements.now) line_buffer.new }
    ensures steps { TellsRows D.device store.old →
        steps.new ≤ steps.old + sum_by (spec.steps_of_statement store.old.history) statements.now }
    ensures refused { IfErr result (IsPrintFault D.device store.old store.new) }
    ensures no_fault { OnOk result (NoFault D.device store.old.disk store.new.disk) }
    ensures same { IsReadOn D.device store.old store.new }
{
    for statement in statements {
        answer_statement(alloc, statement, names, store, line_buffer, sink, steps)?;
    }
    Ok(())
}

/// Prints the answer to a statement, whose end may still be buffered.
fn answer_statement<D: Disk, K: Sink, L: Ledger>(
    alloc: Global,
    statement: &TypedStatement,
    names: &Names,
    store: &mut Store<D>,
    line_buffer: &mut LineBuffer,
    sink: &mut K,
    steps: &mut Steps<L>,
) -> Result<(), PrintFault>
    requires names { names.now ≡ spec.packet_names store.old.head store.old.history }
    requires tables { NamesTables (length store.old.head.tables) statement.now }
    requires room { HasLineRoom line_buffer.old }
    ensures printed { PrintsRows (TellsRows D.device store.old) result (K.state sink.old) (K.state sink.new)
        line_buffer.old (spec.statement_text (archive_of store.old) statement.now) line_buffer.new }
    ensures steps { TellsRows D.device store.old →
        steps.new ≤ steps.old + spec.steps_of_statement store.old.history statement.now }
    ensures refused { IfErr result (IsPrintFault D.device store.old store.new) }
    ensures no_fault { OnOk result (NoFault D.device store.old.disk store.new.disk) }
    ensures same { IsReadOn D.device store.old store.new }
{
    match statement {
        TypedStatement::Select(query) => {
            print_selection(alloc, query, names, store, line_buffer, sink, steps)
        }
        TypedStatement::ShowHistogram(table) => {
            print_spans(alloc, *table, names, store, line_buffer, sink)
        }
        TypedStatement::ShowPartitions(table) => {
            print_partitions(alloc, *table, names, store, line_buffer, sink)
        }
        // these stand in other scripts
        TypedStatement::CreateTable(_) => Ok(()),
        TypedStatement::CreateStream(_) => Ok(()),
        TypedStatement::Insert { .. } => Ok(()),
    }
}

/// How printing fails where what stands in memory alone refuses: nothing but more memory may be wanting.
fn memory_fault(refusal: Refusal) -> PrintFault
    requires { refusal ≡ Refusal.OutOfMemory }
    ensures { result ≡ PrintFault.OutOfMemory }
{
    let _wanting = refusal;
    PrintFault::OutOfMemory
}

/// Prints what a query selects.
fn print_selection<D: Disk, K: Sink, L: Ledger>(
    alloc: Global,
    query: &TypedSelect,
    names: &Names,
    store: &mut Store<D>,
    line_buffer: &mut LineBuffer,
    sink: &mut K,
    steps: &mut Steps<L>,
) -> Result<(), PrintFault>
    requires names { names.now ≡ spec.packet_names store.old.head store.old.history }
    requires tables { AllByRecursion (λ table. table < length store.old.head.tables) query.now.sources }
    requires room { HasLineRoom line_buffer.old }
    ensures printed { PrintsRows (TellsRows D.device store.old) result (K.state sink.old) (K.state sink.new)
        line_buffer.old (spec.statement_text (archive_of store.old) (TypedStatement.Select query.now))
        line_buffer.new }
    ensures steps { TellsRows D.device store.old → steps.new ≤ steps.old
        + spec.steps_of_statement store.old.history (TypedStatement.Select query.now) }
    ensures refused { IfErr result (IsPrintFault D.device store.old store.new) }
    ensures no_fault { OnOk result (NoFault D.device store.old.disk store.new.disk) }
    ensures same { IsReadOn D.device store.old store.new }
{
    match selection(alloc, query, names, store, steps) {
        Ok(text) => text.print(alloc, line_buffer, sink),
        Err(fault) => Err(print_fault_of(fault)),
    }
}

/// Prints the partitions of a table.
fn print_partitions<D: Disk, K: Sink>(
    alloc: Global,
    table: u8,
    names: &Names,
    store: &mut Store<D>,
    line_buffer: &mut LineBuffer,
    sink: &mut K,
) -> Result<(), PrintFault>
    requires names { names.now ≡ spec.packet_names store.old.head store.old.history }
    requires tables { table < length store.old.head.tables }
    requires room { HasLineRoom line_buffer.old }
    ensures printed { PrintsRows (TellsRows D.device store.old) result (K.state sink.old) (K.state sink.new)
        line_buffer.old (spec.statement_text (archive_of store.old) (TypedStatement.ShowPartitions table))
        line_buffer.new }
    ensures refused { IfErr result (IsPrintFault D.device store.old store.new) }
    ensures no_fault { OnOk result (NoFault D.device store.old.disk store.new.disk) }
    ensures same { IsReadOn D.device store.old store.new }
{
    match table_partitions(alloc, table, store) {
        Ok(lines) => print_show(alloc, names, lines.as_slice(), line_buffer, sink),
        Err(fault) => Err(print_fault_of(fault)),
    }
}

/// Prints the records of a table.
fn print_spans<D: Disk, K: Sink>(
    alloc: Global,
    table: u8,
    names: &Names,
    store: &Store<D>,
    line_buffer: &mut LineBuffer,
    sink: &mut K,
) -> Result<(), PrintFault>
    requires names { names.now ≡ spec.packet_names store.now.head store.now.history }
    requires tables { table < length store.now.head.tables }
    requires room { HasLineRoom line_buffer.old }
    ensures { PrintsText result (K.state sink.old) (K.state sink.new)
        (line_buffer.old ++ spec.statement_text (archive_of store.now) (TypedStatement.ShowHistogram table))
        line_buffer.new }
{
    match table_spans(alloc, table, store) {
        Ok(lines) => print_show(alloc, names, lines.as_slice(), line_buffer, sink),
        Err(refusal) => Err(memory_fault(refusal)),
    }
}

/// Prints the records of a table without the line that counts them. The end may still be buffered.
pub fn print_records<D: Disk, K: Sink>(
    alloc: Global,
    table: u8,
    names: &Names,
    store: &Store<D>,
    line_buffer: &mut LineBuffer,
    sink: &mut K,
) -> Result<(), PrintFault>
    requires names { names.now ≡ spec.packet_names store.now.head store.now.history }
    requires tables { table < length store.now.head.tables }
    requires room { HasLineRoom line_buffer.old }
    ensures { PrintsText result (K.state sink.old) (K.state sink.new)
        (line_buffer.old ++ spec.records_text (archive_of store.now) table) line_buffer.new }
{
    match table_spans(alloc, table, store) {
        Ok(lines) => {
            let mut line = Vec::new(alloc);
            print_lines(names, lines.as_slice(), &mut line, line_buffer, sink)
        }
        Err(refusal) => Err(memory_fault(refusal)),
    }
}

/// What a query selects of the rows of an archive.
fn selection<'a, D: Disk, L: Ledger>(
    alloc: Global,
    query: &'a TypedSelect,
    names: &'a Names,
    store: &mut Store<D>,
    steps: &mut Steps<L>,
) -> Result<SelectionText<'a>, RowFault>
    requires tables { AllByRecursion (λ table. table < length store.old.head.tables) query.now.sources }
    ensures text { TellsRows D.device store.old → IfOk result (λ text.
        text ≡ selection_text names.now query.now (rows_in store.old.history)) }
    ensures steps { TellsRows D.device store.old → steps.new ≤ steps.old
        + spec.steps_of_statement store.old.history (TypedStatement.Select query.now) }
    ensures refused { IfErr result (IsSourceFault D.device store.old store.new) }
    ensures no_fault { OnOk result (NoFault D.device store.old.disk store.new.disk) }
    ensures same { IsReadOn D.device store.old store.new }
{
    let parts = held_parts(alloc, query, store)?;
    let front = store.front();
    select(alloc, query, names, store, &parts, front, steps)
}

/// The partitions that hold what a query selects: of each source those that may hold a row in the bounds of the condition.
fn held_parts<D: Disk>(
    alloc: Global,
    query: &TypedSelect,
    store: &Store<D>,
) -> Result<PartList, AllocError>
    requires { AllByRecursion (λ table. table < length store.now.head.tables) query.now.sources }
    ensures held { IfOk result (λ parts. HoldsSelected query.now parts (rows_in store.now.history)) }
    ensures pruned { IfOk result
        (spec.AreSourceParts store.now.history (bounds_of query.now.condition) query.now.sources) }
{
    store.is_kept();
    let bounds = bounds(alloc, &query.condition)?;
    pruned_parts(alloc, query.sources.as_slice(), store, &bounds)
}

/// The partitions of a table that may hold a row in the bounds.
fn parts_in<D: Disk>(table: u8, store: &Store<D>, bounds: &Bounds) -> Result<PartList, AllocError>
    requires { table < length store.now.head.tables }
    ensures { IfOk result (ArePartitions store.now.history table bounds.now) }
{
    match store.parts(table, bounds) {
        Ok(parts) => Ok(parts),
        Err(_) => Err(AllocError),
    }
}

/// The partitions of some tables that may hold a row in the bounds, those of each table behind those of the table before.
fn pruned_parts<D: Disk>(
    alloc: Global,
    tables: &[u8],
    store: &Store<D>,
    bounds: &Bounds,
) -> Result<PartList, AllocError>
    requires { AllByRecursion (λ table. table < length store.now.head.tables) tables.now }
    ensures pruned { IfOk result (spec.AreSourceParts store.now.history bounds.now tables.now) }
{
    let mut parts = Vec::new(alloc);
    for table in tables {
        let found = parts_in(*table, store, bounds)?;
        let mut more = found.into_vec();
        parts.append(&mut more)?;
    }
    Ok(PartList::from_vec(parts))
}

/// The partitions of a table that have a row, with how many they have.
fn table_partitions<D: Disk>(
    alloc: Global,
    table: u8,
    store: &mut Store<D>,
) -> Result<Vec<ShowLine>, RowFault>
    requires { table < length store.old.head.tables }
    ensures lines { TellsRows D.device store.old → IfOk result (λ lines. lines.items
        ≡ spec.table_partitions table store.old.history) }
    ensures refused { IfErr result (IsSourceFault D.device store.old store.new) }
    ensures no_fault { OnOk result (NoFault D.device store.old.disk store.new.disk) }
    ensures same { IsReadOn D.device store.old store.new }
{
    store.is_kept();
    let bounds = all_bounds();
    let parts = parts_in(table, store, &bounds)?;
    let front = store.front();
    partition_lines(alloc, store, table, parts.as_slice(), front)
}

/// The records of a table, packet name after packet name.
fn table_spans<D: Disk>(
    alloc: Global,
    table: u8,
    store: &Store<D>,
) -> Result<Vec<ShowLine>, Refusal>
    requires { table < length store.now.head.tables }
    ensures lines { IfOk result (λ lines. lines.items
        ≡ spec.table_spans (length (spec.packet_names store.now.head store.now.history)) table store.now.history) }
    ensures refused { IfErr result (λ refusal. refusal ≡ Refusal.OutOfMemory) }
{
    let names = store.name_count();
    let mut lines = Vec::new(alloc);
    for place in 0..names {
        let pname = place as u16;
        let spans = store.histogram(table, pname)?;
        add_spans(&mut lines, pname, spans.as_slice())?;
    }
    Ok(lines)
}

/// Adds the records of a packet name.
fn add_spans(lines: &mut Vec<ShowLine>, pname: u16, spans: &[Span]) -> Result<(), AllocError>
    ensures { OnOk result (lines.new.items ≡ lines.old.items ++ map (ShowLine.Histogram pname) spans.now) }
{
    for span in spans {
        lines.push(ShowLine::Histogram { pname, span: *span })?;
    }
    Ok(())
}
