//! Where rows come from.

ghost use Rattle.std.specs.Prelude.{◌≤◌, ◌^◌, [], ◌∷◌, length, map};
ghost use Rattle.ssql_types.specs.Faults as faults;
ghost use Rattle.ssql_types.specs.Typed as spec;
ghost use Rattle.ssql_types.specs.Typing.{TypesAs};

use crate::names::{is_tm_in, number_among};
use crate::not_typed::NotTyped;
use crate::rules::{Rule, behind, refused};
use arch_types::name::{Name, Names};
use arch_types::tables::TableList;
use item_list::Items;
use ssql_parse::QuerySource;
use std::alloc::Global;

/// Where a route takes rows from.
#[derive(Clone, Copy, Debug, PartialEq, Eq)]
pub enum RouteSource {
    /// Every packet of every link.
    Packets,
    /// A stream, by the number of its CREATE STREAM among those of the script, from 0.
    Stream(u16),
}

/// The number of a table.
pub(crate) fn table_at<'a>(
    tables: &Names,
    name: &Name,
    places: &'a [u32],
) -> Result<(u8, &'a [u32]), NotTyped>
    requires { length tables.now ≤ 16 }
    ensures { TypesAs (λ x. (x.0, x.1.now)) result (faults.table_fault tables.now name.now ∷ []) places.now
        (spec.known_number tables.now name.now) }
{
    match number_among(tables.as_slice(), name.as_slice()) {
        Some(number) => Ok((number as u8, behind(places))),
        None => {
            let name = name.copy()?;
            Err(NotTyped::UnknownTable { name })
        }
    }
}

/// The numbers of tables, with a sign behind each name.
fn tables_at<'a>(
    alloc: Global,
    tables: &Names,
    names: &[Name],
    places: &'a [u32],
) -> Result<(TableList, &'a [u32]), NotTyped>
    requires { length tables.now ≤ 16 }
    ensures { TypesAs (λ x. (x.0, x.1.now)) result (faults.listed_faults (faults.table_fault tables.now) names.now)
        places.now (map (spec.known_number tables.now) names.now) }
{
    let mut numbers = TableList::new(alloc);
    let mut rest = places;
    for name in names {
        let (number, later) = table_at(tables, name, rest)?;
        numbers.push(number)?;
        rest = behind(later);
    }
    Ok((numbers, rest))
}

/// The tables that a query takes rows from.
pub(crate) fn table_sources<'a>(
    alloc: Global,
    tables: &Names,
    source: &QuerySource,
    places: &'a [u32],
) -> Result<(TableList, &'a [u32]), NotTyped>
    requires { length tables.now ≤ 16 }
    ensures { TypesAs (λ x. (x.0, x.1.now)) result (faults.source_faults (faults.table_fault tables.now) source.now)
        places.now (map (spec.known_number tables.now) (spec.source_names source.now)) }
{
    match source {
        QuerySource::One(name) => {
            let (number, rest) = table_at(tables, name, places)?;
            let mut numbers = TableList::new(alloc);
            numbers.push(number)?;
            Ok((numbers, rest))
        }
        QuerySource::Merge(names) => {
            // behind MERGE and `(`
            tables_at(alloc, tables, names.as_slice(), behind(behind(places)))
        }
    }
}

/// What a route takes rows from by a name.
fn stream_at<'a>(
    created: &Names,
    name: &Name,
    places: &'a [u32],
) -> Result<(RouteSource, &'a [u32]), NotTyped>
    requires { length created.now ≤ 2 ^ 16 }
    ensures { TypesAs (λ x. (x.0, x.1.now)) result (faults.stream_fault created.now name.now ∷ []) places.now
        (spec.route_source created.now name.now) }
{
    if is_tm_in(name) {
        return Ok((RouteSource::Packets, behind(places)));
    }
    match number_among(created.as_slice(), name.as_slice()) {
        Some(number) => Ok((RouteSource::Stream(number as u16), behind(places))),
        None => Err(refused(Rule::UnknownStream, places)),
    }
}

/// The same of names with a sign behind each.
fn streams_at<'a>(
    alloc: Global,
    created: &Names,
    names: &[Name],
    places: &'a [u32],
) -> Result<(Items<RouteSource>, &'a [u32]), NotTyped>
    requires { length created.now ≤ 2 ^ 16 }
    ensures { TypesAs (λ x. (x.0, x.1.now)) result (faults.listed_faults (faults.stream_fault created.now) names.now)
        places.now (map (spec.route_source created.now) names.now) }
{
    let mut streams = Items::new(alloc);
    let mut rest = places;
    for name in names {
        let (stream, later) = stream_at(created, name, rest)?;
        streams.push(stream)?;
        rest = behind(later);
    }
    Ok((streams, rest))
}

/// What a query of a route takes rows from.
pub(crate) fn route_sources<'a>(
    alloc: Global,
    created: &Names,
    source: &QuerySource,
    places: &'a [u32],
) -> Result<(Items<RouteSource>, &'a [u32]), NotTyped>
    requires { length created.now ≤ 2 ^ 16 }
    ensures { TypesAs (λ x. (x.0, x.1.now)) result (faults.source_faults (faults.stream_fault created.now) source.now)
        places.now (map (spec.route_source created.now) (spec.source_names source.now)) }
{
    match source {
        QuerySource::One(name) => {
            let (stream, rest) = stream_at(created, name, places)?;
            let mut streams = Items::new(alloc);
            streams.push(stream)?;
            Ok((streams, rest))
        }
        QuerySource::Merge(names) => {
            // behind MERGE and `(`
            streams_at(alloc, created, names.as_slice(), behind(behind(places)))
        }
    }
}
