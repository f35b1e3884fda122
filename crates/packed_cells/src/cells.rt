//! Lists of cells.

ghost use Rattle.std.specs.Prelude.{◌≡◌, ◌++◌, ◌∷◌, [], length, OnErr, OnOk};
ghost use Rattle.std.specs.Iterator.{at_most};
ghost use Rattle.std.specs.Map.Iter.{TakesFirst};
ghost use Rattle.packed_cells.specs.Kept.{IsPartAdded};
ghost use Rattle.packed_cells.specs.Packed.{cells_in};

use crate::reading::{Before, cell_at};
use crate::writing::{LONGEST, is_sized, put_cell};
use arch_types::cell::Cell;
use std::alloc::{AllocError, Global};
use std::marker::Model;

/// Cells in some order, each kept as its differences to the one before.
#[derive(Debug, Drop)]
pub struct PackedCells {
    octets: Vec<u8>,
    count: usize,
    last: Before,
}

impl Model for PackedCells {
    ghost use Rattle.std.specs.Prelude.{List};
    ghost use Rattle.arch_types.specs.declared.cell.Cell.{Cell};
    ghost use Rattle.packed_cells.specs.Packed.{cells_in, origin};
    ghost use Rattle.packed_cells.specs.Kept.{AreKept};

    ghost Value = { List Cell };

    ghost view = { λ c. cells_in c.count origin c.octets.items };

    ghost invariant = { λ c. AreKept c.count c.octets.items c.last };
}

impl PackedCells {
    /// None.
    pub fn new(alloc: Global) -> PackedCells
        ensures { result ≡ [] }
    {
        PackedCells {
            octets: Vec::new(alloc),
            count: 0,
            last: Before::origin(),
        }
    }

    /// How many there are.
    pub fn len(&self) -> usize
        ensures { result ≡ length self.now }
    {
        self.count
    }

    /// Adds one at the end. The one error is want of memory.
    pub fn push(&mut self, cell: Cell) -> Result<(), AllocError>
        ensures added { OnOk result (self.new ≡ self.old ++ cell ∷ []) }
        ensures refused { OnErr result (self.new ≡ self.old) }
    {
        let Some(count) = self.count.checked_add(1) else {
            return Err(AllocError);
        };
        is_sized(&cell);
        self.octets.reserve(LONGEST)?;
        put_cell(&mut self.octets, &self.last, &cell);
        self.count = count;
        self.last = self.last.after(&cell);
        Ok(())
    }

    /// Adds some at the end. The one error is want of memory, for which the first of them are added, as many as have room.
    pub fn extend_from_slice(&mut self, cells: &[Cell]) -> Result<(), AllocError>
        ensures added { OnOk result (self.new ≡ self.old ++ cells.now) }
        ensures refused { OnErr result (IsPartAdded self.old cells.now self.new) }
    {
        for cell in cells {
            self.push(*cell)?;
        }
        Ok(())
    }

    /// They, one after the other.
    pub fn iter(&self) -> CellsLeft<'_>
        ensures { result ≡ self.now }
    {
        CellsLeft {
            octets: &self.octets,
            left: self.count,
            last: Before::origin(),
        }
    }
}

/// The cells that are left, in their order.
#[derive(Debug, Drop)]
pub struct CellsLeft<'a> {
    octets: &'a [u8],
    left: usize,
    last: Before,
}

impl<'a> Model for CellsLeft<'a> {
    ghost use Rattle.std.specs.Prelude.{List};
    ghost use Rattle.arch_types.specs.declared.cell.Cell.{Cell};
    ghost use Rattle.packed_cells.specs.Packed.{cells_in};

    ghost Value = { List Cell };

    ghost view = { λ c. cells_in c.left c.last c.octets.now };
}

impl<'a> Iterator for CellsLeft<'a> {
    type Item = Cell;

    ghost next_gives = { TakesFirst (λ cell. cell) };

    ghost remaining = { λ s. at_most (length s) };

    fn next(&mut self) -> Option<Cell> {
        let left = self.left.checked_sub(1)?;
        let Ok((cell, rest)) = cell_at(self.octets, &self.last) else {
            self.left = 0;
            return None;
        };
        self.left = left;
        self.octets = rest;
        self.last = self.last.after(&cell);
        Some(cell)
    }
}
