//! Routes, and the tables that two rows reach by them.

ghost use Rattle.arch_types.specs.Packet.{IsPacket};

use crate::ends::none_other;
use crate::forms::{row_of_a, row_of_b, typed_text};
use arch_types::row::Row;
use item_list::Items;
use ssql_conditions::condition::Condition;
use ssql_types::place::ScriptPlace;
use ssql_types::query::TypedFlow;
use ssql_types::script::TypedScript;
use ssql_types::sources::RouteSource;
use ssql_types::statement::TypedStatement;
use std::alloc::{AllocError, Global};
use std::test::Fail;
use stream_graph::graph::Graph;

/// A route, and the tables that each of two rows reaches by it: 0 is `tm`, 1 is `copy`.
type RouteCase = (&'static [u8], &'static [u8], &'static [u8]);

/// The rows are that of A, with APID 100, on link 1, and that of B, with APID 101, on link 2.
const ROUTES: &[RouteCase] = &[
    (b"", &[], &[]),
    (b"INSERT INTO tm SELECT * FROM tm_in", &[0], &[0]),
    (
        b"INSERT INTO tm SELECT * FROM tm_in; INSERT INTO copy SELECT * FROM tm_in WHERE apid = 100;",
        &[0, 1],
        &[0],
    ),
    // a table that two INSERTs reach
    (
        b"CREATE STREAM s AS SELECT * FROM tm_in WHERE pname = 'A'; INSERT INTO tm SELECT * FROM s; \
            INSERT INTO tm SELECT * FROM tm_in WHERE apid = 100;",
        &[0],
        &[],
    ),
    // the order is that of the INSERTs
    (
        b"INSERT INTO copy SELECT * FROM tm_in; INSERT INTO tm SELECT * FROM tm_in",
        &[1, 0],
        &[1, 0],
    ),
    // and of those that the row reaches
    (
        b"INSERT INTO tm SELECT * FROM tm_in WHERE apid = 101; INSERT INTO copy SELECT * FROM tm_in; \
            INSERT INTO tm SELECT * FROM tm_in",
        &[1, 0],
        &[0, 1],
    ),
    // each condition on a path counts
    (
        b"CREATE STREAM a AS SELECT * FROM tm_in WHERE apid = 100; CREATE STREAM b AS SELECT * FROM a WHERE link = 1; \
            INSERT INTO tm SELECT * FROM b WHERE length = 14",
        &[0],
        &[],
    ),
    (
        b"CREATE STREAM a AS SELECT * FROM tm_in WHERE link = 2; CREATE STREAM b AS SELECT * FROM a WHERE apid = 100; \
            INSERT INTO tm SELECT * FROM b",
        &[],
        &[],
    ),
    (
        b"CREATE STREAM a AS SELECT * FROM tm_in WHERE link = 2; CREATE STREAM b AS SELECT * FROM a WHERE apid = 101; \
            INSERT INTO tm SELECT * FROM b WHERE pname = 'A'; INSERT INTO copy SELECT * FROM b",
        &[],
        &[1],
    ),
    // any source of a MERGE passes a row on
    (
        b"CREATE STREAM a AS SELECT * FROM tm_in WHERE apid = 100; \
            CREATE STREAM b AS SELECT * FROM tm_in WHERE apid = 101; \
            INSERT INTO tm SELECT * FROM MERGE(a, b); INSERT INTO copy SELECT * FROM MERGE(a, a) WHERE link > 0",
        &[0, 1],
        &[0],
    ),
    (
        b"CREATE STREAM a AS SELECT * FROM tm_in; \
            CREATE STREAM b AS SELECT * FROM MERGE(a, tm_in) WHERE NOT apid = 100; \
            INSERT INTO tm SELECT * FROM MERGE(b, a); INSERT INTO copy SELECT * FROM b",
        &[0],
        &[0, 1],
    ),
    // an INSERT between streams has no number
    (
        b"CREATE STREAM a AS SELECT * FROM tm_in WHERE apid = 100; INSERT INTO copy SELECT * FROM a; \
            CREATE STREAM b AS SELECT * FROM tm_in WHERE apid = 101; INSERT INTO tm SELECT * FROM b",
        &[1],
        &[0],
    ),
    // no INSERT reads the stream
    (b"CREATE STREAM a AS SELECT * FROM tm_in", &[], &[]),
];

/// They are a function, so that they stand in no goal of its callers.
fn routes() -> &'static [RouteCase] {
    ROUTES
}

/// Whether a row reaches these tables, in this order.
fn reaches(alloc: Global, graph: &Graph, row: &Row, tables: &[u8]) -> bool
    requires { IsPacket row.now.packet }
{
    match graph.route(alloc, row) {
        Ok(found) => found.as_slice() == tables,
        Err(_) => false,
    }
}

/// Whether the row of A reaches these tables.
fn reaches_of_a(alloc: Global, graph: &Graph, tables: &[u8]) -> bool {
    match row_of_a(alloc) {
        Some(row) => reaches(alloc, graph, &row, tables),
        None => false,
    }
}

/// Whether the row of B reaches these tables.
fn reaches_of_b(alloc: Global, graph: &Graph, tables: &[u8]) -> bool {
    match row_of_b(alloc) {
        Some(row) => reaches(alloc, graph, &row, tables),
        None => false,
    }
}

/// Whether the rows of A and B reach these tables by a script.
fn reach(alloc: Global, script: &TypedScript, of_a: &[u8], of_b: &[u8]) -> bool {
    match Graph::of(alloc, script) {
        Ok(graph) => reaches_of_a(alloc, &graph, of_a) && reaches_of_b(alloc, &graph, of_b),
        Err(_) => false,
    }
}

/// Whether they do by the route that a text spells.
fn reach_by(alloc: Global, text: &[u8], of_a: &[u8], of_b: &[u8]) -> bool {
    match typed_text(alloc, ScriptPlace::Route, text) {
        Ok(script) => reach(alloc, &script, of_a, of_b),
        Err(_) => false,
    }
}

/// The place of the first route by which a row reaches others.
fn other_route(alloc: Global, routes: &[RouteCase]) -> Option<usize> {
    let mut place = 0usize;
    for (text, of_a, of_b) in routes {
        if !reach_by(alloc, text, of_a, of_b) {
            return Some(place);
        }
        place = place.saturating_add(1);
    }
    None
}

#[test]
fn tables_of_rows(rt: HostRuntime) -> Result<(), Fail> {
    none_other(other_route(rt.alloc(), routes()))
}

/// Whether the row of A reaches `tm` alone where every packet does.
fn reaches_tm(alloc: Global) -> bool {
    match Graph::every_packet(alloc) {
        Ok(graph) => reaches_of_a(alloc, &graph, &[0]),
        Err(_) => false,
    }
}

#[test]
fn every_packet_into_tm(rt: HostRuntime) {
    assert!(rt; reaches_tm(rt.alloc()));
}

/// A query of one source that asks nothing of a row.
fn flow_from(alloc: Global, source: RouteSource) -> Result<TypedFlow, AllocError> {
    let mut sources = Items::new(alloc);
    sources.push(source)?;
    Ok(TypedFlow {
        sources,
        condition: Condition::new(Items::new(alloc)),
    })
}

fn add_stream(
    alloc: Global,
    script: &mut TypedScript,
    source: RouteSource,
) -> Result<(), AllocError> {
    let flow = flow_from(alloc, source)?;
    script.push(TypedStatement::CreateStream(flow))
}

fn add_insert(
    alloc: Global,
    script: &mut TypedScript,
    table: u8,
    source: RouteSource,
) -> Result<(), AllocError> {
    let flow = flow_from(alloc, source)?;
    script.push(TypedStatement::Insert { table, flow })
}

/// Adds statements that no script spells: a stream takes rows from the one below it.
fn add_turned_streams(alloc: Global, script: &mut TypedScript) -> Result<(), AllocError> {
    add_stream(alloc, script, RouteSource::Stream(1))?;
    add_stream(alloc, script, RouteSource::Packets)?;
    add_insert(alloc, script, 0, RouteSource::Stream(0))?;
    add_insert(alloc, script, 1, RouteSource::Stream(1))?;
    script.push(TypedStatement::ShowHistogram(0))
}

/// Whether rows reach by these the table of the stream that takes packets, and no other.
fn reach_by_turned_streams(alloc: Global) -> bool {
    let mut script = TypedScript::new(alloc);
    add_turned_streams(alloc, &mut script).is_ok() && reach(alloc, &script, &[1], &[1])
}

#[test]
fn streams_below_give_nothing(rt: HostRuntime) {
    assert!(rt; reach_by_turned_streams(rt.alloc()));
}
