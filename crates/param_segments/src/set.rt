//! A segment set.

ghost use Rattle.std.specs.Prelude.{◌≡◌, ◌+◌, ◌<◌, ◌↔◌, length, IfOk, IsTrue};
ghost use Rattle.param_segments.specs.CellRange.{cells_in_range};
ghost use Rattle.param_segments.specs.Cells.{AreValuesOf, set_cells, set_raw_cells};
ghost use Rattle.param_segments.specs.Groups.{set_of};
ghost use Rattle.param_segments.specs.Octets.{IsSpelledSet, rows_of_numbered_segment, rows_in_octets, set_octets};

use crate::cell_range::CellRange;
use crate::cells::{calibrated_cells, raw_cells, raw_cells_in_segment};
use crate::range_cells::range_cells;
use crate::raw_cell::RawCells;
use arch_types::cell::Cells;
use arch_types::octets::Octets;
use arch_types::steps::Steps;
use mdb_model::Mdb;
use std::alloc::{AllocError, Global};
use std::marker::Model;
use std::sync::ledger::Ledger;

/// Rows with their raw values, by columns: each parameter's are read without the others'.
#[derive(Drop)]
pub struct SegSet {
    /// The one spelling of the rows. Copies share it.
    octets: Octets,
    /// The place where each segment begins in it.
    starts: Vec<u32>,
}

impl Model for SegSet {
    ghost use Rattle.std.specs.Prelude.{List};
    ghost use Rattle.param_segments.specs.Rows.{SetRow};
    ghost use Rattle.param_segments.specs.Octets.{IsSpelledSet, rows_in_octets};

    ghost Value = { List SetRow };

    ghost view = { λ s. rows_in_octets s.octets };

    ghost invariant = { λ s. IsSpelledSet s.octets s.starts.items };
}

impl SegSet {
    /// The set that octets spell, with the places where its segments begin.
    pub(crate) fn of_spelling(octets: Octets, starts: Vec<u32>) -> SegSet
        requires { IsSpelledSet octets starts.items }
        ensures { result ≡ rows_in_octets octets }
    {
        SegSet { octets, starts }
    }

    /// The same set over other octets that spell it, in place of its own.
    pub(crate) fn over(self, octets: Octets) -> SegSet
        requires { octets ≡ set_octets self }
        ensures same { result ≡ self }
        ensures value { result ≡ rows_in_octets octets }
    {
        SegSet::of_spelling(octets, self.starts)
    }

    /// The cells of a parameter, in the order of their keys: what an extraction of the rows' packets gives of it. The
    /// database is one of which the set's values are, as that by which it was built or read.
    pub fn cells(&self, alloc: Global, mdb: &Mdb, parameter: u16) -> Result<Cells, AllocError>
        requires { AreValuesOf mdb.now self.now }
        ensures { IfOk result (λ cells. cells ≡ set_cells mdb.now parameter self.now) }
    {
        let raw = raw_cells(alloc, self.octets.as_slice(), &self.starts, parameter)?;
        calibrated_cells(alloc, mdb, parameter, &raw)
    }

    /// The cells of a parameter that a range asks: those with `from <= time < to`, the last first where it's
    /// descending, up to its limit. No value outside the range is unpacked, and none behind the limit is calibrated.
    pub fn cells_in_range(
        &self,
        alloc: Global,
        mdb: &Mdb,
        parameter: u16,
        range: CellRange,
    ) -> Result<Cells, AllocError>
        requires { AreValuesOf mdb.now self.now }
        ensures { IfOk result (λ cells. cells ≡ cells_in_range mdb.now parameter range self.now) }
    {
        let raw = range_cells(
            alloc,
            self.octets.as_slice(),
            &self.starts,
            parameter,
            range,
        )?;
        calibrated_cells(alloc, mdb, parameter, &raw)
    }

    /// The number of its segments.
    pub fn segments(&self) -> u32
        ensures { result ≡ length (set_of self.now) }
    {
        self.starts.len() as u32
    }

    /// The cells of a parameter in the segment with a number, in the order of their keys, in one step.
    pub fn cells_in_segment<L: Ledger>(
        &self,
        alloc: Global,
        mdb: &Mdb,
        segment: u32,
        parameter: u16,
        steps: &mut Steps<L>,
    ) -> Result<Cells, AllocError>
        requires segment { segment < length (set_of self.now) }
        requires values { AreValuesOf mdb.now self.now }
        ensures cells { IfOk result (λ cells.
            cells ≡ set_cells mdb.now parameter (rows_of_numbered_segment self.now segment)) }
        ensures step { steps.new ≡ steps.old + 1 }
    {
        steps.tick();
        let raw = raw_cells_in_segment(
            alloc,
            self.octets.as_slice(),
            &self.starts,
            segment as usize,
            parameter,
        )?;
        calibrated_cells(alloc, mdb, parameter, &raw)
    }

    /// The raw numbers of a parameter at the keys of its rows, in the order of these: its cells before they are
    /// calibrated.
    pub fn raw_cells(&self, alloc: Global, parameter: u16) -> Result<RawCells, AllocError>
        ensures { IfOk result (λ cells. cells ≡ set_raw_cells parameter self.now) }
    {
        let raw = raw_cells(alloc, self.octets.as_slice(), &self.starts, parameter)?;
        Ok(RawCells::from_vec(raw))
    }

    /// The raw cells of a parameter in the segment with a number, in the order of their keys, in one step.
    pub fn raw_cells_in_segment<L: Ledger>(
        &self,
        alloc: Global,
        segment: u32,
        parameter: u16,
        steps: &mut Steps<L>,
    ) -> Result<RawCells, AllocError>
        requires { segment < length (set_of self.now) }
        ensures cells { IfOk result (λ cells.
            cells ≡ set_raw_cells parameter (rows_of_numbered_segment self.now segment)) }
        ensures step { steps.new ≡ steps.old + 1 }
    {
        steps.tick();
        let raw = raw_cells_in_segment(
            alloc,
            self.octets.as_slice(),
            &self.starts,
            segment as usize,
            parameter,
        )?;
        Ok(RawCells::from_vec(raw))
    }

    /// Its one spelling, whose octets it shares.
    pub fn to_bytes(&self) -> Result<Octets, AllocError>
        ensures spelled { IfOk result (λ octets. octets ≡ set_octets self.now) }
        ensures value { IfOk result (λ octets. rows_in_octets octets ≡ self.now) }
    {
        self.octets.copy()
    }

    /// The other set has the same rows. Rows have one spelling, so the octets tell.
    pub fn equals(&self, other: &SegSet) -> bool
        ensures { IsTrue result ↔ (self.now ≡ other.now) }
    {
        self.octets.as_slice() == other.octets.as_slice()
    }

    /// An equal value, which shares the octets.
    pub fn copy(&self, alloc: Global) -> Result<SegSet, AllocError>
        ensures { IfOk result (λ copy. copy ≡ self.now) }
    {
        Ok(SegSet {
            octets: self.octets.copy()?,
            starts: Vec::from_slice(alloc, &self.starts)?,
        })
    }
}
