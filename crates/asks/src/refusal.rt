//! Why an ask has no answer, and the look-up of a table.

ghost use Rattle.std.specs.Prelude.{◌≡◌, ◌<◌, ◌≤ℤ◌, IfNone, IfSome, length};
ghost use Rattle.asks.specs.Names.{table_number};
ghost use Rattle.asks.specs.Refusals.{range_refusal};

use arch_types::name::{Name, Names};

/// Why an ask has no answer: its parameter or its table is looked for first, and then its range.
#[derive(Debug, Drop)]
pub enum AskRefusal {
    /// The database has no parameter of the name.
    UnknownParameter,
    /// The range ends before it begins.
    BadRange { from: i64, to: i64 },
    /// No table has the name.
    UnknownTable { name: Name },
}

/// The number of the table that has a name: its place among the names of the tables.
pub fn table_number(tables: &Names, name: &Name) -> Option<usize>
    ensures value { result ≡ table_number tables.now name.now }
    ensures within { IfSome result (λ number. number < length tables.now) }
{
    for (i, table) in tables.as_slice().iter().enumerate() {
        if name.as_slice() == table.as_slice() {
            return Some(i);
        }
    }
    None
}

/// Why a range is none: it ends before it begins.
pub fn range_refusal(from: i64, to: i64) -> Option<AskRefusal>
    ensures value { result ≡ range_refusal from to }
    ensures whole { IfNone result (from ≤ℤ to) }
{
    if to < from {
        return Some(AskRefusal::BadRange { from, to });
    }
    None
}
