//! Queries with their types.

ghost use Rattle.std.specs.Prelude.{◌≡◌, ◌≤◌, ◌^◌, length, option_map, unwrap_or, IfOk};
ghost use Rattle.ssql_parse.specs.Depth.{filter_depth};
ghost use Rattle.ssql_parse.specs.Grammar.{IsQuery, AreColumns};
ghost use Rattle.ssql_types.specs.Faults as faults;
ghost use Rattle.ssql_types.specs.Literals.{script_count};
ghost use Rattle.ssql_types.specs.Rules.{no_fault, places_behind};
ghost use Rattle.ssql_types.specs.Typed as spec;
ghost use Rattle.ssql_types.specs.Typing.{PassesOver, TypesAs};

use crate::condition::typed_filter;
use crate::literals::script_count;
use crate::not_typed::NotTyped;
use crate::rules::{Rule, behind, refused};
use crate::sources::{RouteSource, route_sources, table_sources};
use arch_types::direction::Direction;
use arch_types::name::Names;
use arch_types::octets::Octets;
use arch_types::tables::TableList;
use item_list::Items;
use ssql_conditions::condition::Condition;
use ssql_parse::{Columns, Query};
use ssql_tokens::Column;
use std::alloc::{AllocError, Global};

/// A query of tables.
#[derive(Debug, Drop)]
pub struct TypedSelect {
    /// In the order of the answer; `*` is all eight.
    pub columns: Items<Column>,
    /// Numbers of tables. One that stands twice counts twice.
    pub sources: TableList,
    /// Which rows are selected.
    pub condition: Condition,
    /// Ascending where no ORDER is written.
    pub direction: Direction,
    /// The greatest number of rows.
    pub limit: Option<u64>,
}

/// A query of a route, which passes rows on as they are.
#[derive(Debug, Drop)]
pub struct TypedFlow {
    /// Where rows come from.
    pub sources: Items<RouteSource>,
    /// Which rows pass.
    pub condition: Condition,
}

impl TypedFlow {
    /// An equal query.
    pub fn copy(&self, alloc: Global) -> Result<TypedFlow, AllocError>
        ensures { IfOk result (λ copy. copy ≡ self.now) }
    {
        let sources = self.sources.copy(alloc)?;
        let condition = self.condition.copy(alloc)?;
        Ok(TypedFlow { sources, condition })
    }
}

/// The columns that `*` stands for.
fn all_columns(alloc: Global) -> Result<Items<Column>, AllocError>
    ensures { IfOk result (λ columns. columns ≡ spec.selected_columns Columns.All) }
{
    let columns = [
        Column::Gentime,
        Column::SeqNum,
        Column::Rectime,
        Column::Link,
        Column::Pname,
        Column::Apid,
        Column::Length,
        Column::Packet,
    ];
    Ok(Items::from_vec(Vec::from_slice(alloc, &columns)?))
}

/// Listed columns, with a sign behind each.
fn columns_at<'a>(
    alloc: Global,
    columns: &[Column],
    places: &'a [u32],
) -> Result<(Items<Column>, &'a [u32]), NotTyped>
    ensures { TypesAs (λ x. (x.0, x.1.now)) result (faults.listed_faults (λ column. no_fault) columns.now)
        places.now columns.now }
{
    let mut listed = Items::new(alloc);
    let mut rest = places;
    for column in columns {
        listed.push(*column)?;
        rest = behind(behind(rest));
    }
    Ok((listed, rest))
}

/// The columns of a query of tables, and FROM.
fn selected_columns<'a>(
    alloc: Global,
    columns: &Columns,
    places: &'a [u32],
) -> Result<(Items<Column>, &'a [u32]), NotTyped>
    ensures { TypesAs (λ x. (x.0, x.1.now)) result (faults.columns_faults no_fault columns.now) places.now
        (spec.selected_columns columns.now) }
{
    match columns {
        Columns::All => Ok((all_columns(alloc)?, behind(behind(places)))),
        Columns::Listed(columns) => columns_at(alloc, columns.as_slice(), places),
    }
}

/// The limit of a query of tables, whose LIMIT comes next where it is written.
fn typed_limit<'a>(
    limit: &Option<Octets>,
    places: &'a [u32],
) -> Result<(Option<u64>, &'a [u32]), NotTyped>
    ensures { TypesAs (λ x. (x.0, x.1.now)) result (faults.limit_faults no_fault limit.now) places.now
        (option_map (λ text. unwrap_or (script_count text) 0) limit.now) }
{
    let Some(text) = limit else {
        return Ok((None, places));
    };
    let rest = behind(places);
    match script_count(text.as_slice()) {
        Some(count) => Ok((Some(count), behind(rest))),
        None => Err(refused(Rule::OutOfRange, rest)),
    }
}

/// The direction of a query of tables, whose ORDER comes next where it is written.
fn typed_order(order: Option<Direction>, places: &[u32]) -> (Direction, &[u32])
    ensures direction { result.0 ≡ unwrap_or order Direction.Ascending }
    ensures rest { result.1.now ≡ places_behind (faults.order_faults no_fault order) places.now }
{
    match order {
        None => (Direction::Ascending, places),
        Some(direction) => (direction, behind(behind(places))),
    }
}

/// A query of tables, behind its SELECT.
pub(crate) fn typed_select<'a>(
    alloc: Global,
    tables: &Names,
    names: &Names,
    query: &Query,
    places: &'a [u32],
) -> Result<(TypedSelect, &'a [u32]), NotTyped>
    requires tables { length tables.now ≤ 16 }
    requires names { length names.now ≤ 2 ^ 16 }
    requires query { IsQuery query.now }
    requires depth { filter_depth query.now.filter ≤ 32 }
    ensures { TypesAs (λ x. (x.0, x.1.now)) result (faults.query_faults no_fault (faults.table_fault tables.now) query.now)
        places.now (spec.typed_select tables.now names.now query.now) }
{
    let (columns, rest) = selected_columns(alloc, &query.columns, places)?;
    let (sources, rest) = table_sources(alloc, tables, &query.source, rest)?;
    let (condition, rest) = typed_filter(alloc, names, &query.filter, rest)?;
    let (direction, rest) = typed_order(query.order, rest);
    let (limit, rest) = typed_limit(&query.limit, rest)?;
    Ok((
        TypedSelect {
            columns,
            sources,
            condition,
            direction,
            limit,
        },
        rest,
    ))
}

/// The places behind the columns of a route's query, which are `*`, and FROM.
fn behind_columns<'a>(columns: &Columns, places: &'a [u32]) -> Result<&'a [u32], NotTyped>
    requires { AreColumns columns.now }
    ensures { PassesOver (λ rest. rest.now) result (faults.columns_faults faults.form_fault columns.now) places.now }
{
    match columns {
        Columns::All => Ok(behind(behind(places))),
        Columns::Listed(_) => Err(refused(Rule::WrongForm, places)),
    }
}

/// No ORDER comes next.
fn no_order(order: Option<Direction>, places: &[u32]) -> Result<&[u32], NotTyped>
    ensures { PassesOver (λ rest. rest.now) result (faults.order_faults faults.form_fault order) places.now }
{
    match order {
        None => Ok(places),
        Some(_) => Err(refused(Rule::WrongForm, places)),
    }
}

/// No LIMIT comes next.
fn no_limit<'a>(limit: &Option<Octets>, places: &'a [u32]) -> Result<&'a [u32], NotTyped>
    ensures { PassesOver (λ rest. rest.now) result (faults.limit_faults faults.form_fault limit.now) places.now }
{
    match limit {
        None => Ok(places),
        Some(_) => Err(refused(Rule::WrongForm, places)),
    }
}

/// A query of a route.
pub(crate) fn typed_flow<'a>(
    alloc: Global,
    created: &Names,
    names: &Names,
    query: &Query,
    places: &'a [u32],
) -> Result<(TypedFlow, &'a [u32]), NotTyped>
    requires created { length created.now ≤ 2 ^ 16 }
    requires names { length names.now ≤ 2 ^ 16 }
    requires query { IsQuery query.now }
    requires depth { filter_depth query.now.filter ≤ 32 }
    ensures { TypesAs (λ x. (x.0, x.1.now)) result (faults.flow_faults created.now query.now) places.now
        (spec.typed_flow created.now names.now query.now) }
{
    let rest = behind_columns(&query.columns, behind(places))?;
    let (sources, rest) = route_sources(alloc, created, &query.source, rest)?;
    let (condition, rest) = typed_filter(alloc, names, &query.filter, rest)?;
    let rest = no_order(query.order, rest)?;
    let rest = no_limit(&query.limit, rest)?;
    Ok((TypedFlow { sources, condition }, rest))
}
