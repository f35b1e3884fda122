//! The days of listed packet names.

ghost use Rattle.std.specs.Prelude.{◌≡◌, ◌≤ℤ◌};
ghost use Rattle.partitions.specs.NameDay.{name_day_cmp};
ghost use Rattle.partitions.specs.NameDayFilter.{passes_filter, IsFirstFrom};

use crate::days::Days;
use crate::name_day::NameDay;
use crate::sorted_names::SortedNames;

/// Some days of some packet names.
#[derive(Drop)]
pub(crate) struct NameDayFilter {
    pub(crate) days: Days,
    pub(crate) names: SortedNames,
}

impl NameDayFilter {
    /// The first name day that is wanted, from this one on.
    pub(crate) fn first_from(&self, at: NameDay) -> Option<NameDay>
        requires { self.now.days.first ≤ℤ self.now.days.last }
        ensures { IsFirstFrom name_day_cmp (passes_filter self.now) at result }
    {
        let pname = self.names.first_from(at.pname)?;
        if pname > at.pname || at.day < self.days.first {
            return Some(self.first_of(pname));
        }
        if at.day <= self.days.last {
            return Some(at);
        }
        let pname = self.names.first_after(pname)?;
        Some(self.first_of(pname))
    }

    /// The first day of a packet name.
    fn first_of(&self, pname: u16) -> NameDay
        ensures { result ≡ record { pname = pname; day = self.now.days.first } }
    {
        NameDay {
            pname,
            day: self.days.first,
        }
    }
}
