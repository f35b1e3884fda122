//! Days in a row.

ghost use Rattle.std.specs.Prelude.{◌≡◌, ℤ, ◌<ℤ◌, ◌≤ℤ◌, ◌↔◌, true};
ghost use Rattle.partitions.specs.Bounds.{HasTimeOn};
ghost use Rattle.partitions.specs.NameDayFilter.{is_on};

use crate::bounds::Bounds;
use time_text::day_of;

/// Civil days, from the first to the last.
#[derive(Clone, Copy)]
pub(crate) struct Days {
    pub(crate) first: i64,
    /// Included.
    pub(crate) last: i64,
}

impl Days {
    /// The days of the times in bounds that hold one.
    pub(crate) fn of(bounds: &Bounds) -> Self
        requires { bounds.now.from <ℤ bounds.now.to }
        ensures exactly { (day : ℤ) → (is_on result day ≡ true) ↔ HasTimeOn bounds.now.from bounds.now.to day }
        ensures some { result.first ≤ℤ result.last }
    {
        Days {
            first: day_of(bounds.from),
            last: day_of(bounds.to - 1),
        }
    }
}
