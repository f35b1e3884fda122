//! Time texts: what people write for a moment, and the milliseconds since 1970 that it stands for.
//!
//! A time text is a count of milliseconds, or a civil date and time of the Gregorian calendar, carried back and
//! forth without leap seconds (`specs/TimeText.antt`). The sheet of asks, the literals of StreamSQL and the printed
//! columns read and write it; partitions and their names take the day of a moment from here.
//!
//! The calendar of the definitions counts the days of years and months from 1970 on (`specs/Calendar.antt`). The code
//! asks jiff for dates, and `proofs/CalendarFacts.antt` shows that both calendars agree. The text of a moment and the name
//! of a day are functions (`specs/Spelling.antt`), by the date that counting day by day gives; `specs/Laws.antt` says that
//! each has its shape and is read back as that moment or day, and which moments a day has.
//!
//! A change of a form touches its shape in `specs/TimeText.antt`, the reader and the writer.
#![tactic(auto)]

mod calendar;
mod civil;
mod day;
mod digits;
pub mod laws;
mod reading;
mod writing;

pub use day::{day_name, day_octets, day_of};
pub use reading::{BadTime, read_time, read_time_octets};
pub use writing::{time_octets, write_time};
