//! Rows that come in.

ghost use Rattle.std.specs.Prelude.{◌≡◌, ◌++◌, ◌∷◌, [], List, length, take, IfNone, IfOk, IfSome, OnOk, OnErr};
ghost use Rattle.arch_types.specs.declared.inserted.Inserted.TheVariants.{New, Duplicate};
ghost use Rattle.history_items.specs.declared.fills.Fill.{Fill as FillItem};
ghost use Rattle.arch_types.specs.History.{ingested, is_duplicate_of, with_row};
ghost use Rattle.history_items.specs.Items.{items_of};
ghost use Rattle.history_items.specs.Places.{first_place};
ghost use Rattle.history_items.specs.Outcomes.{outcome_of, outcomes_of};
ghost use Rattle.archive_core.specs.Replies.{RepliesToIngest};
ghost use Rattle.interval_fills.specs.Steps.{state_of};

use crate::reply::Reply;
use arch_types::inserted::{Inserted, Outcomes};
use arch_types::row::Row;
use std::alloc::{AllocError, Global};

/// Whether a row has another's table and key.
fn has_key_of(row: &Row, other: &Row) -> bool
    ensures { result ≡ is_duplicate_of row.now other.now }
{
    row.table == other.table && row.key.cmp(&other.key).is_eq()
}

/// The place of the first row that has another's table and key.
fn place_of_key(rows: &[Row], row: &Row) -> Option<usize>
    ensures place { result ≡ first_place (is_duplicate_of row.now) rows.now }
    ensures there { IfSome result (λ place. (outcome_of (items_of rows.now) row.now ≡ Duplicate place)
        × (with_row rows.now row.now ≡ rows.now)) }
    ensures new { IfNone result ((outcome_of (items_of rows.now) row.now ≡ New (length rows.now))
        × (with_row rows.now row.now ≡ rows.now ++ row.now ∷ [])) }
{
    for (i, other) in rows.iter().enumerate() {
        if has_key_of(row, other) {
            return Some(i);
        }
    }
    None
}

/// A row comes in. Refused for want of memory, all is as it was.
fn ingest_row(rows: &mut Vec<Row>, row: &Row) -> Result<Inserted, AllocError>
    ensures outcome { IfOk result (λ outcome. outcome ≡ outcome_of (items_of rows.old.items) row.now) }
    ensures rows { OnOk result (rows.new.items ≡ with_row rows.old.items row.now) }
    ensures err { OnErr result (rows.new.items ≡ rows.old.items) }
{
    match place_of_key(rows.as_slice(), row) {
        Some(place) => Ok(Inserted::Duplicate(place as u64)),
        None => {
            let position = rows.len() as u64;
            rows.push(row.copy()?)?;
            Ok(Inserted::New(position))
        }
    }
}

/// Rows come in, one after the other. Refused for want of memory, some may have come.
fn ingest_each(
    rows: &mut Vec<Row>,
    batch: &[Row],
    outcomes: &mut Vec<Inserted>,
) -> Result<(), AllocError>
    ensures outcomes { OnOk result (outcomes.new.items ≡ outcomes.old.items ++ outcomes_of (items_of rows.old.items) batch.now) }
    ensures rows { OnOk result (rows.new.items ≡ ingested rows.old.items batch.now) }
    ensures first { take (length rows.old.items) rows.new.items ≡ rows.old.items }
{
    for row in batch {
        let outcome = ingest_row(rows, row)?;
        outcomes.push(outcome)?;
    }
    Ok(())
}

/// Rows come in, all of them or, for want of memory, none.
fn ingest(alloc: Global, rows: &mut Vec<Row>, batch: &[Row]) -> Result<Outcomes, AllocError>
    ensures outcomes { IfOk result (λ outcomes. outcomes ≡ outcomes_of (items_of rows.old.items) batch.now) }
    ensures rows { OnOk result (rows.new.items ≡ ingested rows.old.items batch.now) }
    ensures err { OnErr result (rows.new.items ≡ rows.old.items) }
{
    let len = rows.len();
    let mut outcomes = Vec::new(alloc);
    match ingest_each(rows, batch, &mut outcomes) {
        Ok(()) => Ok(Outcomes::from_vec(outcomes)),
        Err(error) => {
            rows.truncate(len);
            Err(error)
        }
    }
}

/// The reply to rows that come in. Refused for want of memory, the history is as it was.
#[tactic(auto, using(history_items::proofs::ItemLists::items_ingested))]
pub(crate) fn ingested(
    alloc: Global,
    rows: &mut Vec<Row>,
    batch: &[Row],
) -> Result<Reply, AllocError>
    ensures reply { IfOk result (λ reply. (fills : List FillItem) →
        RepliesToIngest (state_of (items_of rows.old.items) fills) batch.now reply (state_of (items_of rows.new.items) fills)) }
    ensures err { OnErr result (rows.new.items ≡ rows.old.items) }
{
    let outcomes = ingest(alloc, rows, batch)?;
    Ok(Reply::Ingested(outcomes))
}
