//! Where two segment sets of an interval differ.

ghost use Rattle.std.specs.Prelude.{◌≡◌, ◌<◌, ℕ, IfOk, IfSome, IfNone};
ghost use Rattle.param_segments.specs.Cells.{set_cells};
ghost use Rattle.archive_verify.specs.Differences.{IsFirstDifference};
ghost use Rattle.archive_verify.specs.ComparedSets.{AreComparable, IsFirstSetDifference};

use crate::differences::{CellDifference, first_difference};
use mdb_model::Mdb;
use param_segments::SegSet;
use std::alloc::{AllocError, Global};

/// The first parameter of which two sets have other cells.
#[derive(Clone, Copy, Debug, PartialEq, Eq)]
pub struct SetDifference {
    /// The parameter's number in the database.
    pub parameter: u16,
    /// Where its cells differ first.
    pub cells: CellDifference,
}

/// Where the cells of a parameter in two sets differ first.
fn parameter_difference(
    alloc: Global,
    mdb: &Mdb,
    parameter: u16,
    stored: &SegSet,
    replayed: &SegSet,
) -> Result<Option<CellDifference>, AllocError>
    requires { AreComparable mdb.now stored.now replayed.now }
    ensures some { IfOk result (λ o. IfSome o
        (IsFirstDifference (set_cells mdb.now parameter stored.now) (set_cells mdb.now parameter replayed.now))) }
    ensures none { IfOk result (λ o. IfNone o
        (set_cells mdb.now parameter stored.now ≡ set_cells mdb.now parameter replayed.now)) }
{
    let stored = stored.cells(alloc, mdb, parameter)?;
    let replayed = replayed.cells(alloc, mdb, parameter)?;
    Ok(first_difference(stored.as_slice(), replayed.as_slice()))
}

/// The first difference of two sets of a database: the least parameter, and of that the least key.
pub(crate) fn set_difference(
    alloc: Global,
    mdb: &Mdb,
    stored: &SegSet,
    replayed: &SegSet,
) -> Result<Option<SetDifference>, AllocError>
    requires { AreComparable mdb.now stored.now replayed.now }
    ensures some { IfOk result (λ o. IfSome o (IsFirstSetDifference mdb.now stored.now replayed.now)) }
    ensures none { IfOk result (λ o. IfNone o
        ((q : ℕ) → set_cells mdb.now q stored.now ≡ set_cells mdb.now q replayed.now)) }
{
    // most sets that stand are those that the rows give
    if stored.equals(replayed) {
        return Ok(None);
    }
    for parameter in 0..mdb.parameters() {
        if let Some(cells) = parameter_difference(alloc, mdb, parameter, stored, replayed)? {
            return Ok(Some(SetDifference { parameter, cells }));
        }
    }
    Ok(None)
}
