//! The pages of a run that may have rows with some times.

ghost use Rattle.std.specs.Prelude.{◌≡◌, ◌*◌, ◌≤◌, ℕ, List, take, drop};
ghost use Rattle.std.specs.List.{AllByRecursion};
ghost use Rattle.run_pages.specs.Placed.{Placed};
ghost use Rattle.run_files.specs.Run.{IsRunInMemory, page_count};
ghost use Rattle.sealed_rows.specs.Calls.{IsAboveKey, IsBelowKey, IsOutside};

use crate::wanted::Times;
use arch_types::key::Key;
use run_files::Run;

/// Pages of a run: from this one on, up to before the end.
#[derive(Clone, Copy)]
pub(crate) struct PageSpan {
    pub(crate) first: u32,
    pub(crate) end: u32,
}

/// A page before which all keys are below this one.
fn page_from(run: &Run, key: Key) -> u32
    ensures { (content : List ℕ) (rows : List Placed) → IsRunInMemory content run.now rows →
        AllByRecursion (IsBelowKey key) (take (64 * result) rows) }
{
    match run.page_of(key) {
        Some(page) => page,
        None => 0,
    }
}

/// A page from which on all keys are above this one.
fn page_behind(run: &Run, key: Key) -> u32
    ensures within { result ≤ page_count run.now }
    ensures above { (content : List ℕ) (rows : List Placed) → IsRunInMemory content run.now rows →
        AllByRecursion (IsAboveKey key) (drop (64 * result) rows) }
{
    match run.page_of(key) {
        Some(page) => page + 1,
        None => 0,
    }
}

/// The pages outside which no row has one of some times. A page that begins with the end of a range may be among them.
pub(crate) fn pages_with(run: &Run, times: Times) -> PageSpan
    ensures within { result.end ≤ page_count run.now }
    ensures before { (content : List ℕ) (rows : List Placed) → IsRunInMemory content run.now rows →
        AllByRecursion (IsOutside times) (take (64 * result.first) rows) }
    ensures behind { (content : List ℕ) (rows : List Placed) → IsRunInMemory content run.now rows →
        AllByRecursion (IsOutside times) (drop (64 * result.end) rows) }
{
    let Times::Between { from, to } = times else {
        return PageSpan {
            first: 0,
            end: run.page_count(),
        };
    };
    let low = Key { time: from, seq: 0 };
    if run.last() < low {
        return PageSpan { first: 0, end: 0 };
    }
    PageSpan {
        first: page_from(run, low),
        end: page_behind(run, Key { time: to, seq: 0 }),
    }
}
