//! The commands that read a dump and no archive: `scan` and `values`.
//!
//! Stands for: their plans (specs/Scan.antt, specs/Values.antt), and a dump that is received now (specs/ReadDump.antt).
//! Called by the top call. What the rest of a dump is answered by they have from `command_runs`, as `load` has.
//!
//! The way of a dump: `read_scan_input` opens it, dump_lines receives it and keeps what is wanted of its rows, `scan`
//! the keys and lengths, `values` all; and each row or cell is printed as a line in the order of the keys.
//!
//! The one idea of the proofs: what is kept is that of the packets that the dump has, so what is printed entry by
//! entry, or row by row, is the text that the plan names (proofs/Scanned.antt, proofs/Valued.antt).
//!
//! Begin with `scan_plan`, and then `scan`; `values` reads three sheets before the dump.
#![tactic(auto)]

pub mod scan;
mod scan_input;
pub mod values;
