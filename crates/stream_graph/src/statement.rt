//! The statements of routes.

ghost use Rattle.std.specs.Prelude.{◌≡◌, IfOk};
ghost use Rattle.stream_graph.specs.Routes as spec;

use ssql_types::query::TypedFlow;
use ssql_types::statement::TypedStatement;
use std::alloc::{AllocError, Global};

/// A statement of a route.
#[derive(Debug, Drop)]
pub enum RouteStatement {
    /// A stream. The first of a route has the number 0, the next 1, and so on.
    Stream(TypedFlow),
    /// Rows go into a table, by its number.
    Insert { table: u8, flow: TypedFlow },
}

/// The statement of a route that a script's statement is, if it is one.
pub(crate) fn route_statement(
    alloc: Global,
    statement: &TypedStatement,
) -> Result<Option<RouteStatement>, AllocError>
    ensures { IfOk result (λ found. found ≡ spec.route_statement statement.now) }
{
    match statement {
        TypedStatement::CreateStream(flow) => {
            let flow = flow.copy(alloc)?;
            Ok(Some(RouteStatement::Stream(flow)))
        }
        TypedStatement::Insert { table, flow } => {
            let flow = flow.copy(alloc)?;
            Ok(Some(RouteStatement::Insert {
                table: *table,
                flow,
            }))
        }
        TypedStatement::CreateTable(_)
        | TypedStatement::Select(_)
        | TypedStatement::ShowHistogram(_)
        | TypedStatement::ShowPartitions(_) => Ok(None),
    }
}
