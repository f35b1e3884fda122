//! Rows of a table.

ghost use Rattle.std.specs.Prelude.{◌≡◌, IfOk, filter, nat_eq, length};
ghost use Rattle.std.specs.List.{filter_map, list_any};
ghost use Rattle.asks.specs.Names.{packet_name_number, packet_name_numbers};
ghost use Rattle.history_items.specs.Databases.{names_of_database};
ghost use Rattle.arch_types.specs.Directions.{truncated};
ghost use Rattle.replay_merge.specs.Replay.{has_listed_name, is_listed_name, replay_of};
ghost use Rattle.archive_core.specs.Replies.{RepliesToReplay};

use crate::ordered::range_of;
use crate::reply::Reply;
use arch_types::name::Names;
use arch_types::row::{Row, Rows};
use asks::{AskRefusal, ReplayRequest, range_refusal, table_number};
use item_list::Items;
use mdb_model::Mdb;
use std::alloc::{AllocError, Global};

/// The numbers of those packet names that the database has.
fn numbers_of(alloc: Global, mdb: &Mdb, names: &Names) -> Result<Items<u16>, AllocError>
    ensures { IfOk result (λ numbers. numbers ≡ filter_map (packet_name_number (names_of_database mdb.now)) names.now) }
{
    let mut numbers = Items::new(alloc);
    for name in names.as_slice() {
        if let Some(number) = mdb.container_number(name.as_str()) {
            numbers.push(number)?;
        }
    }
    Ok(numbers)
}

/// The same, if names are asked for.
fn names_asked(
    alloc: Global,
    mdb: &Mdb,
    names: &Option<Names>,
) -> Result<Option<Items<u16>>, AllocError>
    ensures { IfOk result (λ numbers. numbers ≡ packet_name_numbers (names_of_database mdb.now) names.now) }
{
    match names {
        Some(names) => Ok(Some(numbers_of(alloc, mdb, names)?)),
        None => Ok(None),
    }
}

/// Whether a number is among others.
fn is_among(number: u16, numbers: &[u16]) -> bool
    ensures { result ≡ list_any (nat_eq number) numbers.now }
{
    numbers.iter().any(|other| number == *other)
}

/// Whether a packet name is among those listed, or there is no list.
fn is_listed_name(names: &Option<Items<u16>>, pname: u16) -> bool
    ensures { result ≡ is_listed_name names.now pname }
{
    match names {
        None => true,
        Some(names) => is_among(pname, names.as_slice()),
    }
}

/// Leaves the rows whose packet name is among those listed.
fn keep_listed(rows: &mut Vec<Row>, names: &Option<Items<u16>>)
    ensures { rows.new.items ≡ filter (has_listed_name names.now) rows.old.items }
{
    rows.retain(|row| is_listed_name(names, row.pname));
}

/// Leaves the first so many rows, or all.
fn keep_first(rows: &mut Vec<Row>, limit: Option<u64>)
    ensures { rows.new.items ≡ truncated limit rows.old.items }
{
    match limit {
        None => {}
        Some(limit) => rows.truncate(limit as usize),
    }
}

/// The rows of a table that a request asks.
fn replayed_rows(
    alloc: Global,
    mdb: &Mdb,
    table: usize,
    rows: &[Row],
    request: &ReplayRequest,
) -> Result<Rows, AllocError>
    ensures { IfOk result (λ found. found ≡ replay_of (names_of_database mdb.now) table request.now rows.now) }
{
    let names = names_asked(alloc, mdb, &request.names)?;
    let mut found = range_of(alloc, rows, table, request.from, request.to)?;
    keep_listed(&mut found, &names);
    keep_first(&mut found, request.limit);
    Ok(Rows::from_vec(found))
}

/// The reply to a request for the rows of a table over a history. The one error is want of memory.
pub(crate) fn replayed(
    alloc: Global,
    tables: &Names,
    mdb: &Mdb,
    rows: &[Row],
    request: &ReplayRequest,
) -> Result<Reply, AllocError>
    ensures { IfOk result
        (RepliesToReplay tables.now (names_of_database mdb.now) (length rows.now) rows.now request.now) }
{
    let Some(table) = table_number(tables, &request.table) else {
        let name = request.table.copy()?;
        return Ok(Reply::Refused(AskRefusal::UnknownTable { name }));
    };
    if let Some(refusal) = range_refusal(request.from, request.to) {
        return Ok(Reply::Refused(refusal));
    }
    Ok(Reply::Replayed {
        front: rows.len() as u64,
        rows: replayed_rows(alloc, mdb, table, rows, request)?,
    })
}
