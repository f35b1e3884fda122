//! Cells in few octets each.
//!
//! Stands for: a list of cells (`PackedCells`), which are added at its end and taken one after the other. A cell is kept as its
//! differences to the one before: six to nine octets where values change little, in place of 48. Called by who makes an answer and
//! by who prints it.
//!
//! The idea of the proof: what contracts see is what reading gives (`cells_in` of specs/Packed.antt), and a cell that is spelled is
//! read again (proofs/Again.antt). None takes more than 64 octets (proofs/Room.antt), and so much room is taken before the first is
//! written. Numbers and differences are taken in 64 bits where they fit, as most do. To be changed together: `put_cell`, `cell_at`,
//! and both of specs/Packed.antt.
#![tactic(auto)]

mod cells;
mod reading;
mod writing;
mod zigzag;

pub use cells::{CellsLeft, PackedCells};
