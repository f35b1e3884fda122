//! What the files of seals came to so far.

ghost use Rattle.std.specs.Prelude.{◌≡◌, ◌↔◌, ◌++◌, [], ◌∷◌, true, IsTrue, OnOk};
ghost use Rattle.std.specs.List.{AllByRecursion};
ghost use Rattle.octet_fields.specs.Exact.{IsOctets};
ghost use Rattle.run_files.specs.Run.{run_table};
ghost use Rattle.run_pages.specs.Pages.{IsPage, rows_of_page};
ghost use Rattle.run_pages.specs.Placed.{rows_of_placed};
ghost use Rattle.archive_images.specs.Entries.{IsPlaced};
ghost use Rattle.sealed_opening.specs.SoFar.{ArePlacedIf, AreRowsNoted};

use crate::positions::PositionFlags;
use arch_types::row::Row;
use archive_images::Head;
use fill_tracker::FillTracker;
use run_files::Run;
use run_pages::PageRows;
use sealed_sums::sums::SealedSums;
use std::alloc::AllocError;
use std::snapshot::Snapshot;
use store_fills::LastFills;

/// As many rows as the sums can't count any more.
const TOO_MANY: u64 = 1 << 32;

/// What the files of seals came to so far.
#[derive(Drop)]
pub struct SealedSoFar {
    /// What the rows of the runs come to, in the order in which they were read.
    pub(crate) sums: SealedSums,
    /// The marks of these rows, with a Done of each fill.
    pub(crate) tracker: FillTracker,
    /// The last fill of each interval.
    pub(crate) sets: LastFills,
    pub(crate) runs: Vec<Run>,
    /// Their pages, for contracts alone.
    pub(crate) told: Vec<Snapshot<PageRows>>,
    pub(crate) positions: PositionFlags,
    /// Whether each run is of the table that its seal names, and the head has the tables and packet names of all rows.
    pub(crate) are_placed: bool,
}

/// Whether the head has the tables and the packet names of all rows.
fn have_places(head: &Head, rows: &[Row]) -> bool
    ensures { IsTrue result ↔ AllByRecursion (IsPlaced head.now []) rows.now }
{
    let tables = head.tables.as_slice().len();
    let names = head.mdb.containers();
    for row in rows {
        if row.table as usize >= tables || row.pname >= names {
            return false;
        }
    }
    true
}

/// The packets of rows have octets.
fn have_octets(rows: &[Row])
    ensures { AllByRecursion (λ row. IsOctets row.packet) rows.now }
{
    for row in rows {
        row.packet.is_octets();
    }
}

impl SealedSoFar {
    /// Notes the rows of a page. The one error is want of memory, and then what was read serves for nothing more.
    pub(crate) fn note_page(&mut self, head: &Head, page: &PageRows) -> Result<(), AllocError>
        requires { IsPage (rows_of_page page.now) }
        ensures noted { OnOk result (AreRowsNoted (rows_of_page page.now) self.old self.new) }
        ensures placed { OnOk result (ArePlacedIf
            (AllByRecursion (IsPlaced head.now []) (rows_of_placed (rows_of_page page.now))) self.old self.new) }
        ensures runs { self.new.runs.items ≡ self.old.runs.items }
    {
        let rows = page.rows.as_slice();
        let positions = page.positions.as_slice();
        if self.sums.count().saturating_add(rows.len() as u64) >= TOO_MANY {
            return Err(AllocError);
        }
        self.told.push(Snapshot::of(page))?;
        self.sums.add_page(&mut self.tracker, rows, positions)?;
        self.positions.add_all(positions);
        have_octets(rows);
        self.note_places(have_places(head, rows));
        Ok(())
    }

    /// Notes whether more are in their places.
    fn note_places(&mut self, these: bool)
        ensures placed { ArePlacedIf (these ≡ true) self.old self.new }
        ensures rest { self.new ≡ record self.old { are_placed = self.new.are_placed } }
    {
        if these {
            return;
        }
        self.are_placed = false;
    }

    /// Notes a run whose rows were noted, and whether it is of the table that its seal names.
    pub(crate) fn note_run(&mut self, run: Run, table: u8) -> Result<(), AllocError>
        ensures runs { OnOk result (self.new.runs.items ≡ self.old.runs.items ++ run ∷ []) }
        ensures placed { ArePlacedIf (run_table run ≡ table) self.old self.new }
        ensures noted { AreRowsNoted [] self.old self.new }
    {
        self.note_places(run.table() == table);
        self.runs.push(run)?;
        Ok(())
    }
}
