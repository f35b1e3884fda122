//! Routes as the code keeps them.

ghost use Rattle.std.specs.Prelude.{◌≡◌, ◌↔◌, ℕ, Contains, nat_eq, IfOk, filter_map};
ghost use Rattle.std.specs.List.{IsDistinct};
ghost use Rattle.arch_types.specs.Packet.{IsPacket};
ghost use Rattle.stream_graph.specs.Routes.{AreInOrder, Reaches, all_packets, every_packet_route, route_statement, route_statements};
ghost use Rattle.stream_graph.specs.RouteTables.{route_of};

use crate::passing::tables_of_row;
use crate::statement::{RouteStatement, route_statement};
use arch_types::row::Row;
use arch_types::tables::PacketTables;
use item_list::Items;
use ssql_conditions::condition::Condition;
use ssql_types::query::TypedFlow;
use ssql_types::script::TypedScript;
use ssql_types::sources::RouteSource;
use ssql_types::statement::TypedStatement;
use std::alloc::{AllocError, Global};
use std::marker::Model;

/// A route, which contracts see as its statements: streams, and INSERTs that take rows from them.
#[derive(Debug, Drop)]
pub struct Graph {
    statements: Items<RouteStatement>,
}

impl Model for Graph {
    ghost use Rattle.std.specs.Prelude.{List};
    ghost use Rattle.std.specs.Coded.{coded_list};
    ghost use Rattle.stream_graph.specs.contracts.statement.RouteStatement as statement;
    ghost use Rattle.stream_graph.specs.declared.statement.RouteStatement.{RouteStatement};

    ghost Value = { List RouteStatement };

    ghost coded = { coded_list statement.the_row.coded };

    ghost view = { λ g. g.statements };
}

/// The streams and INSERTs among some statements.
fn found_statements(
    alloc: Global,
    script: &[TypedStatement],
) -> Result<Items<RouteStatement>, AllocError>
    ensures { IfOk result (λ found. found ≡ filter_map route_statement script.now) }
{
    let mut statements = Items::new(alloc);
    for statement in script {
        if let Some(found) = route_statement(alloc, statement)? {
            statements.push(found)?;
        }
    }
    Ok(statements)
}

/// The query that passes on every packet of every link.
fn all_packets(alloc: Global) -> Result<TypedFlow, AllocError>
    ensures { IfOk result (λ flow. flow ≡ all_packets) }
{
    let mut sources = Items::new(alloc);
    sources.push(RouteSource::Packets)?;
    let pieces = Items::new(alloc);
    Ok(TypedFlow {
        sources,
        condition: Condition::new(pieces),
    })
}

impl Graph {
    /// The route of a script: its streams and its INSERTs.
    pub fn of(alloc: Global, script: &TypedScript) -> Result<Graph, AllocError>
        ensures { IfOk result (λ graph. graph ≡ route_statements script.now) }
    {
        let statements = found_statements(alloc, script.as_slice())?;
        Ok(Graph { statements })
    }

    /// The route of a load that is given none: every packet goes into table `tm`.
    pub fn every_packet(alloc: Global) -> Result<Graph, AllocError>
        ensures { IfOk result (λ graph. graph ≡ every_packet_route) }
    {
        let flow = all_packets(alloc)?;
        let mut statements = Items::new(alloc);
        statements.push(RouteStatement::Insert { table: 0, flow })?;
        Ok(Graph { statements })
    }

    /// The tables that a row goes into, by their numbers. Which table the row itself names doesn't matter.
    pub fn route(&self, alloc: Global, row: &Row) -> Result<PacketTables, AllocError>
        requires { IsPacket row.now.packet }

        // They are those that it reaches: an INSERT names the table, and the row meets each condition on a path from
        // `tm_in` to that INSERT.
        ensures reached { IfOk result (λ tables. (table : ℕ) →
            Contains tables table ↔ Reaches self.now row.now table) }

        // Each once, in the order of the first INSERTs that reach them.
        ensures once { IfOk result (λ tables. IsDistinct nat_eq tables) }
        ensures in_order { IfOk result (λ tables. AreInOrder self.now row.now tables) }

        // So they are one list.
        ensures route { IfOk result (λ tables. tables ≡ route_of self.now row.now) }
    {
        tables_of_row(alloc, self.statements(), row)
    }

    /// Its streams and INSERTs, in their order.
    fn statements(&self) -> &[RouteStatement]
        ensures { result.now ≡ self.now }
    {
        self.statements.as_slice()
    }
}
