//! Whether the rows of a page stand as the index says.

ghost use Rattle.std.specs.Prelude.{◌≡◌, None};
ghost use Rattle.run_pages.specs.Order.{are_ordered, follows, is_below_next, is_same_key};

use arch_types::key::Key;
use arch_types::row::Row;

/// Whether two keys are one.
fn is_same_key(a: Key, b: Key) -> bool
    ensures { result ≡ is_same_key a b }
{
    a.time == b.time && a.seq == b.seq
}

/// Whether a key may follow the last one, or be the first.
fn follows(first: Key, last: Option<Key>, key: Key) -> bool
    ensures { result ≡ follows first last key }
{
    match last {
        Some(last) => last < key,
        None => is_same_key(key, first),
    }
}

/// Whether a key is below the next page's first, if there is a next.
fn is_below_next(key: Key, next: Option<Key>) -> bool
    ensures { result ≡ is_below_next key next }
{
    match next {
        Some(next) => key < next,
        None => true,
    }
}

/// Whether there are rows, all of a table, their keys rising from the first of a page to below the first of the next, if there is a next.
pub fn are_ordered(rows: &[Row], table: u8, first: Key, next: Option<Key>) -> bool
    ensures { result ≡ are_ordered table first next None rows.now }
{
    let mut last = None;
    for row in rows {
        if row.table != table || !follows(first, last, row.key) {
            return false;
        }
        last = Some(row.key);
    }
    match last {
        Some(last) => is_below_next(last, next),
        None => false,
    }
}
