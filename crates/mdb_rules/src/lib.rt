//! The rules of the three sheets, asked row by row.
//!
//! Stands for: lists of items that grow by one row of a sheet after the other, and the first rule that a row breaks, in the order of the
//! rules (`specs/Steps.antt`, `specs/Totals.antt`). Called by the check of sheets, and by the check of lists that were decoded.
#![tactic(auto)]

pub mod calibration_rows;
pub mod condition;
pub mod container_rows;
pub mod limits;
pub mod name_index;
pub mod numbers;
pub mod parameter_rows;
