//! The tables of a history, and the order in which their rows came.

ghost use Rattle.std.specs.Prelude.{◌≡◌, ◌+◌, ◌<◌, ◌≤◌, ◌++◌, [], ◌∷◌, ℕ, true, false, length, replicate, vec_len, vec_capacity, IfOk, OnOk};
ghost use Rattle.history_items.specs.Items.{after_row, row_item};
ghost use Rattle.archive_history.specs.Tables.{AreRowTables, items_in, no_table, table_in};

use crate::partitioned_table::PartitionedTable;
use arch_types::inserted::Inserted;
use arch_types::row::Row;
use std::alloc::{AllocError, Global};
use std::snapshot::Snapshot;

/// So many tables without rows.
#[tactic(auto, using(crate::proofs::Steps::replicate_more))]
pub(crate) fn empty_tables(alloc: Global, count: usize) -> Result<Vec<PartitionedTable>, AllocError>
    ensures { IfOk result (λ tables. tables.items ≡ replicate count no_table) }
{
    let mut tables = Vec::with_capacity(alloc, count)?;
    for _ in 0..count {
        tables.push(PartitionedTable::new(alloc)?)?;
    }
    Ok(tables)
}

/// Makes room in each table for so many more rows.
pub(crate) fn reserve_tables(
    tables: &mut Vec<PartitionedTable>,
    rows: usize,
) -> Result<(), AllocError>
    ensures len { length tables.new.items ≡ length tables.old.items }
    ensures stored { (t : ℕ) → (table_in tables.new.items t).stored ≡ (table_in tables.old.items t).stored }
    ensures more { (t : ℕ) → (table_in tables.old.items t).room ≤ (table_in tables.new.items t).room }
    ensures enough { OnOk result ((t : ℕ) → t < length tables.new.items → rows ≤ (table_in tables.new.items t).room) }
{
    for t in 0..tables.len() {
        tables[t].reserve(rows as u64)?;
    }
    Ok(())
}

/// Adds a row to its table and at the end of the order, where the table has no row of its key. Takes no memory.
pub(crate) fn insert_row(
    tables: &mut Vec<PartitionedTable>,
    order: &mut Vec<Snapshot<Row>>,
    row: Row,
) -> bool
    requires table { row.table < length tables.old.items }
    requires hold { (room : ℕ) × AreRowTables 0 tables.old.items order.old (room + 1) }
    ensures items { items_in order.new.items ≡ after_row (items_in order.old.items) row }
    ensures fresh { result ≡ true → items_in order.new.items ≡ items_in order.old.items ++ row_item row ∷ [] }
    ensures known { result ≡ false → items_in order.new.items ≡ items_in order.old.items }
    ensures hold { (room : ℕ) → AreRowTables 0 tables.old.items order.old (room + 1) →
        AreRowTables 0 tables.new.items order.new room }
    ensures len { length tables.new.items ≡ length tables.old.items }
{
    let table = row.table;
    let position = order.len() as u64;
    let noted = Snapshot::of(&row);
    match tables[table as usize].insert(row, position) {
        Inserted::New(_) => {
            order.push_reserved(noted);
            true
        }
        Inserted::Duplicate(_) => false,
    }
}
