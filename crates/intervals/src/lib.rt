//! The intervals of the parameter archive, and the exponent that says how long they are.
//!
//! Stands for: an interval's number, its times, and the order of intervals (`specs/Interval.antt`). Called by all that keeps or asks
//! intervals: a history keeps the exponent, and the others are given it.
#![tactic(auto)]

pub mod interval;

pub use interval::{Exponent, Interval};
