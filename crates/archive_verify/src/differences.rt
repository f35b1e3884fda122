//! Where two lists of cells differ.

ghost use Rattle.std.specs.Prelude.{◌≡◌, ◌↔◌, map, option_copied, IfSome, IfNone, IsTrue};
ghost use Rattle.std.specs.List.Sorted.{IsStrictlySortedBy};
ghost use Rattle.arch_types.specs.Order.{key_cmp};
ghost use Rattle.archive_verify.specs.Differences.{IsCommonLength, IsFirstDifference, IsSameRaw, difference_at, difference_of_cells, only_replayed, only_stored, raws_of};

use arch_types::cell::Cell;
use arch_types::key::Key;
use std::cmp::Ordering;

/// A key at which two lists of cells differ.
#[derive(Clone, Copy, Debug, PartialEq, Eq)]
pub struct CellDifference {
    pub key: Key,
    /// The raw number that is stored there, where one is.
    pub stored: Option<i128>,
    /// The raw number that the interval's rows give there, where they give one.
    pub replayed: Option<i128>,
}

/// Whether two cells have one key and one raw number.
fn is_same_raw(stored: &Cell, replayed: &Cell) -> bool
    ensures { IsTrue result ↔ IsSameRaw stored.now replayed.now }
{
    stored.key == replayed.key && stored.raw == replayed.raw
}

/// With how many cells two lists begin alike.
fn common_length(stored: &[Cell], replayed: &[Cell]) -> usize
    ensures { IsCommonLength stored.now replayed.now result }
{
    let shorter = stored.len().min(replayed.len());
    for i in 0..shorter {
        if !is_same_raw(&stored[i], &replayed[i]) {
            return i;
        }
    }
    shorter
}

/// A cell that is stored alone.
fn only_stored(cell: &Cell) -> CellDifference
    ensures { result ≡ only_stored cell.now }
{
    CellDifference {
        key: cell.key,
        stored: Some(cell.raw),
        replayed: None,
    }
}

/// A cell that rows give alone.
fn only_replayed(cell: &Cell) -> CellDifference
    ensures { result ≡ only_replayed cell.now }
{
    CellDifference {
        key: cell.key,
        stored: None,
        replayed: Some(cell.raw),
    }
}

/// What two cells at one place differ in: at the lower key, or in their raw numbers at one key.
fn difference_of_cells(stored: &Cell, replayed: &Cell) -> CellDifference
    ensures { result ≡ difference_of_cells stored.now replayed.now }
{
    match stored.key.cmp(&replayed.key) {
        Ordering::Less => only_stored(stored),
        Ordering::Greater => only_replayed(replayed),
        Ordering::Equal => CellDifference {
            key: stored.key,
            stored: Some(stored.raw),
            replayed: Some(replayed.raw),
        },
    }
}

/// What two lists differ in at a place, where one of them has a cell.
fn difference_at(stored: Option<&Cell>, replayed: Option<&Cell>) -> Option<CellDifference>
    ensures { result ≡ difference_at (option_copied stored.entry) (option_copied replayed.entry) }
{
    match (stored, replayed) {
        (None, None) => None,
        (Some(stored), None) => Some(only_stored(stored)),
        (None, Some(replayed)) => Some(only_replayed(replayed)),
        (Some(stored), Some(replayed)) => Some(difference_of_cells(stored, replayed)),
    }
}

/// The first difference of two lists of cells, each in the order of its keys.
pub(crate) fn first_difference(stored: &[Cell], replayed: &[Cell]) -> Option<CellDifference>
    requires stored { IsStrictlySortedBy key_cmp (map (λ c. c.key) stored.now) }
    requires replayed { IsStrictlySortedBy key_cmp (map (λ c. c.key) replayed.now) }
    ensures some { IfSome result (IsFirstDifference stored.now replayed.now) }
    ensures none { IfNone result (raws_of stored.now ≡ raws_of replayed.now) }
{
    let at = common_length(stored, replayed);
    difference_at(stored.get(at), replayed.get(at))
}
