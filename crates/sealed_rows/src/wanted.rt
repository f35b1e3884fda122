//! The rows of a page that are wanted.

ghost use Rattle.std.specs.Prelude.{◌≡◌, [], ◌∷◌, ◌++◌, IfOk};
ghost use Rattle.run_pages.specs.Placed.{row_placed};
ghost use Rattle.run_pages.specs.Pages.{rows_of_page};
ghost use Rattle.sealed_rows.specs.Wanted.{is_in_times, is_wanted, rows_wanted};

use arch_types::row::Row;
use run_pages::PageRows;
use std::alloc::AllocError;

/// Which times are wanted.
#[derive(Clone, Copy)]
pub(crate) enum Times {
    All,
    /// `from <= time < to`.
    Between { from: i64, to: i64 },
}

/// Which rows are wanted of runs.
#[derive(Clone, Copy)]
pub(crate) struct Wanted {
    pub(crate) table: u8,
    pub(crate) times: Times,
    /// Those with a position below it.
    pub(crate) front: u64,
}

/// Whether a row's time is wanted.
fn is_in_times(times: Times, row: &Row) -> bool
    ensures { result ≡ is_in_times times row.now }
{
    match times {
        Times::All => true,
        Times::Between { from, to } => from <= row.key.time && row.key.time < to,
    }
}

/// Whether a row of the table at a position is wanted.
fn is_wanted(wanted: Wanted, position: u64, row: &Row) -> bool
    ensures { result ≡ is_wanted wanted (row_placed position row.now) }
{
    position < wanted.front && is_in_times(wanted.times, row)
}

/// Rows, and then one of the table at a position, if it is wanted, which shares its octets. The one error is want of
/// memory.
fn add_row(
    mut rows: Vec<Row>,
    wanted: Wanted,
    position: u64,
    row: &Row,
) -> Result<Vec<Row>, AllocError>
    ensures { IfOk result (λ all. all.items
        ≡ rows.items ++ rows_wanted wanted (row_placed position row.now ∷ [])) }
{
    if !is_wanted(wanted, position, row) {
        return Ok(rows);
    }
    rows.push(row.copy()?)?;
    Ok(rows)
}

/// Rows, and then those of a page of the table that are wanted. The one error is want of memory.
pub(crate) fn add_page(
    mut rows: Vec<Row>,
    page: &PageRows,
    wanted: Wanted,
) -> Result<Vec<Row>, AllocError>
    ensures { IfOk result (λ all. all.items ≡ rows.items ++ rows_wanted wanted (rows_of_page page.now)) }
{
    let page_rows = page.rows.as_slice();
    let positions = page.positions.as_slice();
    for i in 0..page_rows.len() {
        rows = add_row(rows, wanted, positions[i], &page_rows[i])?;
    }
    Ok(rows)
}
