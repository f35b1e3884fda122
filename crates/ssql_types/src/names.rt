//! The names that a statement may use.

ghost use Rattle.std.specs.Prelude.{◌≡◌, ◌<◌, ◌++◌, length, IfSome, OnOk};
ghost use Rattle.std.specs.Str.{bytes_eq};
ghost use Rattle.ssql_types.specs.Names as spec;

use arch_types::name::{Name, Names};
use ssql_parse::Statement;
use std::alloc::AllocError;

fn is_same_name(name: &[u8], other: &Name) -> bool
    ensures { result ≡ bytes_eq name.now other.now }
{
    name == other.as_slice()
}

/// The place of a name among names.
pub(crate) fn number_among(names: &[Name], name: &[u8]) -> Option<usize>
    ensures number { result ≡ spec.number_among names.now name.now }
    ensures within { IfSome result (λ number. number < length names.now) }
{
    names.iter().position(|other| is_same_name(name, other))
}

/// Whether a name is that of the stream of every packet of every link.
pub(crate) fn is_tm_in(name: &Name) -> bool
    ensures { result ≡ spec.is_tm_in name.now }
{
    name.as_slice() == b"tm_in".as_slice()
}

/// Whether a name is that of the table that each archive has.
pub(crate) fn is_tm(name: &Name) -> bool
    ensures { result ≡ spec.is_tm name.now }
{
    name.as_slice() == b"tm".as_slice()
}

/// Whether a new table or stream may not have a name.
pub(crate) fn is_name_taken(tables: &Names, created: &Names, name: &Name) -> bool
    ensures { result ≡ spec.is_name_taken tables.now created.now name.now }
{
    is_tm_in(name)
        || number_among(tables.as_slice(), name.as_slice()).is_some()
        || number_among(created.as_slice(), name.as_slice()).is_some()
}

/// Adds the name that a statement creates, if it creates one.
pub(crate) fn add_created(created: &mut Names, statement: &Statement) -> Result<(), AllocError>
    ensures { OnOk result (created.new ≡ created.old ++ spec.names_created statement.now) }
{
    match statement {
        Statement::CreateTable { name, .. } | Statement::CreateStream { name, .. } => {
            created.push(name.copy()?)
        }
        Statement::Insert { .. }
        | Statement::Query(_)
        | Statement::ShowHistogram(_)
        | Statement::ShowPartitions(_) => Ok(()),
    }
}
