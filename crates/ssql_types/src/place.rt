//! What scripts are for.

ghost use Rattle.std.specs.Prelude.{◌≡◌};
ghost use Rattle.ssql_types.specs.Faults.{may_stand};

use ssql_parse::Statement;

/// The command's argument that a script is.
#[derive(Clone, Copy, Debug, PartialEq, Eq)]
pub enum ScriptPlace {
    /// The script of `create`: tables.
    Create,
    /// The file of `load --route`: streams, and which rows go into which table.
    Route,
    /// The file of `query --sql`: what is to be printed.
    Sql,
}

/// Whether a statement may stand in a script.
pub(crate) fn may_stand(place: ScriptPlace, statement: &Statement) -> bool
    ensures { result ≡ may_stand place statement.now }
{
    match statement {
        Statement::CreateTable { .. } => matches!(place, ScriptPlace::Create),
        Statement::CreateStream { .. } | Statement::Insert { .. } => {
            matches!(place, ScriptPlace::Route)
        }
        Statement::Query(_) | Statement::ShowHistogram(_) | Statement::ShowPartitions(_) => {
            matches!(place, ScriptPlace::Sql)
        }
    }
}
