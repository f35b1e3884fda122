//! Lists of one type, which contracts see as lists.
//!
//! Stands for: `Items<T>`, which takes a vector over, gives it back without taking memory, and adds at the end. A contract reads a list
//! type of the house (`Rows`, `Cells`, `Outcomes`, ..) as the list of its items: each is a name for `Items` of its kind of item.
//! `TryClone` is an equal value where there's memory, so that a list of such values has `copy`.
#![tactic(auto)]

pub mod items;

pub use items::{Items, TryClone};
