//! The answers to asks: the values of a parameter in the rows of a range, and the rows of a replay, and their text.
//!
//! Stands for: the answer over a store to a request, over the plan that the store makes (`part_answers` answers over the
//! parts of that), and how a value is written (`specs/CellText.antt`); the rows of a replay, each with the name of its
//! packet (`specs/ReplayText.antt`); and what is printed of the asks of a sheet (`specs/AskText.antt`), each of which is
//! found before the first is answered (`specs/FoundAsks.antt`). Called by the commands that print them.
//!
//! The one idea: what was printed of a replay, and the lines of what its cursor has still to give, are the lines of all
//! of it.
//!
//! A caller finds what is asked first, so that a refusal comes before anything is printed:
//!
//!     /// The lines of the cells that a request asks of an archive.
//!     fn asked_text<D: Disk, L: Ledger>(
//!         alloc: Global,
//!         store: &mut Store<D>,
//!         request: Request,
//!         steps: &mut Steps<L>,
//!     ) -> Result<Octets, Refusal> {
//!         let found = store.find(request)?;
//!         let answer = answer_request(alloc, store, &found, steps)?;
//!         Ok(answer_text(alloc, &answer, &found.mdb, found.number)?)
//!     }
#![tactic(auto)]

pub mod answer;
pub mod answer_text;
pub mod cell_text;
pub mod cells;
pub mod found_asks;
pub mod laws;
mod packet_text;
pub mod parameter;
pub mod replay;
