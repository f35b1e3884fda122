//! What is new in a batch.

ghost use Rattle.std.specs.Prelude.{◌≡◌, ◌≤◌, ◌^◌, ◌++◌, [], ◌∷◌, List, IfErr, IfOk, IfSome, OnOk};
ghost use Rattle.arch_types.specs.declared.row.Row.{Row as ARow};
ghost use Rattle.history_items.specs.declared.items.Item.{Item as AnItem};
ghost use Rattle.history_items.specs.Items.{items_of};
ghost use Rattle.history_items.specs.Outcomes.{Says};
ghost use Rattle.replay_merge.specs.RowSource.{AreRowSourceHistories, IsRowFault, UsedRowSource};
ghost use Rattle.archive_store.specs.Classifying.{IsClassified, IsFoundAt, NoneAbove, TellsItems, is_above, table_key_of};
ghost use Rattle.archive_store.specs.Batches.{arrival_rows, batch_rows, in_table};

use crate::batch::{Arrival, Batch};
use crate::filling::no_rows;
use arch_types::inserted::{Inserted, Outcomes};
use arch_types::key::Key;
use arch_types::row::{Row, Rows};
use arch_types::row_fault::RowFault;
use replay_merge::row_source::RowSource;
use std::alloc::{AllocError, Global};

/// A key in a table. Rows mostly come in this order: keys rise from packet to packet, and a packet's tables rise.
#[derive(Clone, Copy, Debug, PartialEq, Eq, PartialOrd, Ord)]
pub(crate) struct TableKey {
    pub key: Key,
    pub table: u8,
}

impl TableKey {
    /// The key of a row, and its table.
    fn of(row: &Row) -> Self
        ensures { result ≡ table_key_of row.now }
    {
        TableKey {
            key: row.key,
            table: row.table,
        }
    }
}

/// What became of rows, and those of them that are new.
#[derive(Drop)]
pub(crate) struct ClassifiedBatch {
    pub outcomes: Outcomes,
    pub fresh: Rows,
    /// The greatest key of the new rows.
    pub last: Option<TableKey>,
}

/// Whether a key is above the last one, if there is one: then it is new in the batch (D-84).
fn is_above(at: TableKey, last: Option<TableKey>) -> bool
    ensures { result ≡ is_above at last }
{
    match last {
        Some(last) => at > last,
        None => true,
    }
}

/// The place of the row of that table and key.
fn place_of(fresh: &[Row], at: TableKey) -> Option<usize>
    ensures { IsFoundAt fresh.now at result }
{
    for (i, row) in fresh.iter().enumerate() {
        if TableKey::of(row) == at {
            return Some(i);
        }
    }
    None
}

/// The place of that row among the new ones. Where its key is above all of theirs, as mostly, none is looked at.
fn fresh_place(classified: &ClassifiedBatch, at: TableKey) -> Option<usize>
    requires { NoneAbove classified.now.last classified.now.fresh }
    ensures { IsFoundAt classified.now.fresh at result }
{
    if is_above(at, classified.last) {
        return None;
    }
    place_of(classified.fresh.as_slice(), at)
}

/// What becomes of the row of that table and key, behind so many items of a history.
fn outcome<R: RowSource>(
    alloc: Global,
    source: &mut R,
    classified: &ClassifiedBatch,
    at: TableKey,
    known: u64,
) -> Result<Inserted, RowFault>
    requires few { known ≤ 2 ^ 32 }
    requires last { NoneAbove classified.now.last classified.now.fresh }
    ensures says { IfOk result (λ outcome. (items : List AnItem) (row : ARow) →
        TellsItems (R.state source.old) items known → table_key_of row ≡ at →
        Says (items ++ items_of classified.now.fresh) row outcome) }
    ensures history { IfSome (R.state source.old).history AreRowSourceHistories }
    ensures refused { IfErr result (IsRowFault (R.state source.old) (R.state source.new)) }
    ensures no_fault { OnOk result ((R.state source.new).faults ≡ (R.state source.old).faults) }
    ensures source { UsedRowSource (R.state source.old) (R.state source.new) }
    ensures left { R.leaves source.old source.new }
{
    if let Some(position) = source.position(alloc, at.table, at.key)? {
        return Ok(Inserted::Duplicate(position));
    }
    let fresh = classified.fresh.as_slice().len();
    match fresh_place(classified, at) {
        Some(i) => Ok(Inserted::Duplicate(known + i as u64)),
        None => Ok(Inserted::New(known + fresh as u64)),
    }
}

/// One new row more.
fn keep(classified: &mut ClassifiedBatch, row: Row) -> Result<(), AllocError>
    requires { NoneAbove classified.old.last classified.old.fresh }
    ensures fresh { OnOk result (classified.new.fresh ≡ classified.old.fresh ++ row ∷ []) }
    ensures last { OnOk result (NoneAbove classified.new.last classified.new.fresh) }
    ensures outcomes { classified.new.outcomes ≡ classified.old.outcomes }
{
    let at = TableKey::of(&row);
    classified.fresh.push(row)?;
    if is_above(at, classified.last) {
        classified.last = Some(at);
    }
    Ok(())
}

/// A copy of a row, as one of another table.
fn copy_in(row: &Row, table: u8) -> Result<Row, AllocError>
    ensures { IfOk result (λ copy. copy ≡ in_table row.now table) }
{
    let copy = row.copy()?;
    Ok(Row { table, ..copy })
}

/// One row more, as one of a table, whichever it names itself.
fn classify_row<R: RowSource>(
    alloc: Global,
    source: &mut R,
    classified: &mut ClassifiedBatch,
    row: &Row,
    table: u8,
    known: u64,
) -> Result<(), RowFault>
    requires few { known ≤ 2 ^ 32 }
    requires last { NoneAbove classified.old.last classified.old.fresh }
    ensures classified { (items : List AnItem) (rows : List ARow) → TellsItems (R.state source.old) items known →
        IsClassified items rows classified.old →
        OnOk result (IsClassified items (rows ++ in_table row.now table ∷ []) classified.new) }
    ensures last { OnOk result (NoneAbove classified.new.last classified.new.fresh) }
    ensures refused { IfErr result (IsRowFault (R.state source.old) (R.state source.new)) }
    ensures no_fault { OnOk result ((R.state source.new).faults ≡ (R.state source.old).faults) }
    ensures source { UsedRowSource (R.state source.old) (R.state source.new) }
    ensures left { R.leaves source.old source.new }
{
    row.packet.is_octets();
    let at = TableKey {
        key: row.key,
        table,
    };
    let outcome = outcome(alloc, source, classified, at, known)?;
    classified.outcomes.push(outcome)?;
    match outcome {
        Inserted::Duplicate(_) => Ok(()),
        Inserted::New(_) => {
            let fresh = copy_in(row, table)?;
            keep(classified, fresh)?;
            Ok(())
        }
    }
}

/// One arrival more, in each of its tables.
fn classify_arrival<R: RowSource>(
    alloc: Global,
    source: &mut R,
    classified: &mut ClassifiedBatch,
    arrival: &Arrival,
    known: u64,
) -> Result<(), RowFault>
    requires few { known ≤ 2 ^ 32 }
    requires last { NoneAbove classified.old.last classified.old.fresh }
    ensures classified { (items : List AnItem) (rows : List ARow) → TellsItems (R.state source.old) items known →
        IsClassified items rows classified.old →
        OnOk result (IsClassified items (rows ++ arrival_rows arrival.now) classified.new) }
    ensures last { OnOk result (NoneAbove classified.new.last classified.new.fresh) }
    ensures refused { IfErr result (IsRowFault (R.state source.old) (R.state source.new)) }
    ensures no_fault { OnOk result ((R.state source.new).faults ≡ (R.state source.old).faults) }
    ensures source { UsedRowSource (R.state source.old) (R.state source.new) }
    ensures left { R.leaves source.old source.new }
{
    for table in arrival.tables.as_slice() {
        classify_row(alloc, source, classified, &arrival.row, *table, known)?;
    }
    Ok(())
}

/// No outcome, with room for so many.
fn no_outcomes(alloc: Global, count: usize) -> Result<Outcomes, AllocError>
    ensures { IfOk result (λ outcomes. outcomes ≡ []) }
{
    Ok(Outcomes::from_vec(Vec::with_capacity(alloc, count)?))
}

/// What becomes of the rows of a batch that comes behind so many items of a history, and those of them that are new. There is
/// room for a row of each arrival, as mostly each goes into one table.
pub(crate) fn classify<R: RowSource>(
    alloc: Global,
    source: &mut R,
    batch: &Batch,
    known: u64,
) -> Result<ClassifiedBatch, RowFault>
    requires { known ≤ 2 ^ 32 }
    ensures classified { IfOk result (λ classified. (items : List AnItem) → TellsItems (R.state source.old) items known →
        IsClassified items (batch_rows batch.now) classified) }
    ensures refused { IfErr result (IsRowFault (R.state source.old) (R.state source.new)) }
    ensures no_fault { OnOk result ((R.state source.new).faults ≡ (R.state source.old).faults) }
    ensures source { UsedRowSource (R.state source.old) (R.state source.new) }
    ensures left { R.leaves source.old source.new }
{
    let count = batch.arrivals.as_slice().len();
    let mut classified = ClassifiedBatch {
        outcomes: no_outcomes(alloc, count)?,
        fresh: no_rows(alloc, count)?,
        last: None,
    };
    for arrival in batch.arrivals.as_slice() {
        classify_arrival(alloc, source, &mut classified, arrival, known)?;
    }
    Ok(classified)
}
