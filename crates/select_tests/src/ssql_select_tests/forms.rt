//! What the tests select from, and how a selection ends.

ghost use Rattle.std.specs.Prelude.{◌≡◌, ◌≤◌, ◌<◌, length, IfOk};

use crate::mem_source::MemSource;
use crate::packets::{Packet, source_of};
use arch_types::name::{Name, Names};
use arch_types::octets::Octets;
use arch_types::row_fault::RowFault;
use arch_types::steps::Steps;
use line_buffer::LineBuffer;
use outer_traits::mem_sink::MemSink;
use outer_traits::print_fault::PrintFault;
use partitions::lists::PartList;
use partitions::partition::Partition;
use ssql_parse::parse;
use ssql_select::select::select;
use ssql_select::selection_text::SelectionText;
use ssql_types::place::ScriptPlace;
use ssql_types::query::TypedSelect;
use ssql_types::script::{TypedScript, typed};
use ssql_types::statement::TypedStatement;
use std::alloc::{AllocError, Global};
use std::marker::Brand;
use std::sync::ledger::{Blank, Ledger};

/// Packets in the order in which they came, 6 of them.
const PACKETS: &[Packet] = &[
    (0, 5, 0, 1),
    (0, 86_400_000, 1, 2),
    // a key that table 0 has too
    (1, 5, 1, 1),
    (0, 2, 1, 3),
    (1, 86_400_000, 0, 4),
    (0, 86_400_007, 0, 5),
];

/// It is a function so that it stands in no goal of its callers.
fn packets() -> &'static [Packet] {
    PACKETS
}

/// A source of these packets, where memory suffices.
pub(crate) fn source_of_packets(alloc: Global, is_known: bool) -> Option<MemSource> {
    source_of(alloc, is_known, packets())
}

/// Names with these texts; a text that is none is left out.
fn names_of(alloc: Global, texts: &[&[u8]]) -> Result<Names, AllocError>
    ensures { IfOk result (λ names. length names ≤ length texts.now) }
{
    let mut names = Names::new(alloc);
    for text in texts {
        if let Some(name) = Name::of(Octets::from_slice(alloc, text)?) {
            names.push(name)?;
        }
    }
    Ok(names)
}

/// The packet names.
pub(crate) fn packet_names(alloc: Global) -> Result<Names, AllocError>
    ensures { IfOk result (λ names. length names ≤ 2) }
{
    names_of(alloc, &[b"A", b"B"])
}

/// All partitions of the packets, in no order, one of them twice.
pub(crate) fn all_parts(alloc: Global) -> Result<PartList, AllocError> {
    let mut parts = PartList::new(alloc);
    for (day, pname) in [(1, 1), (0, 0), (1, 0), (0, 1), (0, 0)] {
        parts.push(Partition { day, pname })?;
    }
    Ok(parts)
}

/// A script over these tables, beside the packet names.
fn typed_over(alloc: Global, text: &[u8], tables: &Names) -> Option<TypedScript>
    requires { length tables.now ≤ 2 }
{
    let names = packet_names(alloc).ok()?;
    typed_beside(alloc, text, tables, &names)
}

/// A script over these tables, beside these packet names.
fn typed_beside(alloc: Global, text: &[u8], tables: &Names, names: &Names) -> Option<TypedScript>
    requires tables { length tables.now ≤ 2 }
    requires names { length names.now ≤ 2 }
{
    let script = parse(alloc, text).ok()?;
    typed(alloc, &script, ScriptPlace::Sql, tables, names).ok()
}

/// A script over the tables `tm` and `copy`.
fn typed_script(alloc: Global, text: &[u8]) -> Option<TypedScript> {
    let tables = names_of(alloc, &[b"tm", b"copy"]).ok()?;
    typed_over(alloc, text, &tables)
}

/// How the answer to a query ended.
#[derive(Clone, Copy, PartialEq, Eq)]
pub(crate) enum Ending {
    Whole,
    Cut,
    Refused,
    /// There was no query, or no memory.
    Unasked,
}

/// Prints a selection.
fn print_selection(alloc: Global, text: &SelectionText<'_>, sink: &mut MemSink) -> Ending {
    let Ok(mut line_buffer) = LineBuffer::new(alloc) else {
        return Ending::Unasked;
    };
    match text.print(alloc, &mut line_buffer, sink) {
        Ok(()) if line_buffer.finish(sink).is_ok() => Ending::Whole,
        Ok(()) | Err(PrintFault::Write) => Ending::Cut,
        Err(PrintFault::DiskFault | PrintFault::Damaged { .. }) => Ending::Refused,
        Err(PrintFault::OutOfMemory) => Ending::Unasked,
    }
}

/// Answers a query over a source of 6 rows, of these partitions and packet names.
fn answer_beside<L: Ledger>(
    alloc: Global,
    query: &TypedSelect,
    names: &Names,
    parts: &PartList,
    source: &mut MemSource,
    sink: &mut MemSink,
    steps: &mut Steps<L>,
) -> Ending {
    match select(alloc, query, names, source, parts, 6, steps) {
        Ok(text) => print_selection(alloc, &text, sink),
        Err(RowFault::OutOfMemory) => Ending::Unasked,
        Err(_) => Ending::Refused,
    }
}

/// Answers a query over a source of 6 rows, of these packet names.
fn answer_named<L: Ledger>(
    alloc: Global,
    query: &TypedSelect,
    names: &Names,
    source: &mut MemSource,
    sink: &mut MemSink,
    steps: &mut Steps<L>,
) -> Ending {
    match all_parts(alloc) {
        Ok(parts) => answer_beside(alloc, query, names, &parts, source, sink, steps),
        Err(_) => Ending::Unasked,
    }
}

/// Answers a query over a source of 6 rows.
fn answer_query<L: Ledger>(
    alloc: Global,
    query: &TypedSelect,
    source: &mut MemSource,
    sink: &mut MemSink,
    steps: &mut Steps<L>,
) -> Ending {
    match packet_names(alloc) {
        Ok(names) => answer_named(alloc, query, &names, source, sink, steps),
        Err(_) => Ending::Unasked,
    }
}

fn answer_counted<L: Ledger>(
    alloc: Global,
    blank: Blank,
    query: &TypedSelect,
    source: &mut MemSource,
    sink: &mut MemSink,
) -> Ending
    requires name { blank.name ≡ L.name }
    requires parts { blank.parts ≡ L.parts }
    requires some { 0 < blank.parts }
{
    let (book, share) = blank.open::<L>();
    let mut steps = Steps::new(book, share);
    answer_query(alloc, query, source, sink, &mut steps)
}

/// Answers a script of one query, with a counter of its own.
pub(crate) fn answer(
    alloc: Global,
    script: &str,
    source: &mut MemSource,
    sink: &mut MemSink,
) -> Ending {
    let Some(script) = typed_script(alloc, script.as_bytes()) else {
        return Ending::Unasked;
    };
    match script.as_slice() {
        [TypedStatement::Select(query)] => {
            answer_counted::<Brand>(alloc, Blank::new(1), query, source, sink)
        }
        _ => Ending::Unasked,
    }
}
