//! What several formats of the house write alike: decimal digits, names, and the range of a clock.
//!
//! Stands for: numbers of decimal digits (`specs/Digits.antt`), names of tables, parameters, calibrations, containers and packets
//! (`specs/Names.antt`), and the moments from 1970 to the year 9999 (`specs/ClockTime.antt`). Called by the readers of sheets, asks,
//! words and times, and by all that keeps a moment.
#![tactic(auto)]

pub mod clock_time;
pub mod digits;
pub mod names;

pub use clock_time::{LAST_CLOCK_TIME, is_clock_time};
pub use digits::{digits_at_most, is_digit, number_of};
pub use names::{is_name, is_name_octet};
