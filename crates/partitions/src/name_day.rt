//! A packet name's day.

ghost use Rattle.std.specs.Prelude.{◌≡◌};
ghost use Rattle.partitions.specs.NameDay.{name_day};

use crate::partition::Partition;

/// The number of a packet name and a civil day: a partition, ordered by the name's number and then by day.
#[derive(Clone, Copy, PartialEq, Eq, PartialOrd, Ord)]
pub(crate) struct NameDay {
    pub(crate) pname: u16,
    pub(crate) day: i64,
}

impl NameDay {
    pub(crate) fn of(partition: Partition) -> Self
        ensures { result ≡ name_day partition }
    {
        NameDay {
            pname: partition.pname,
            day: partition.day,
        }
    }

    pub(crate) fn partition(self) -> Partition
        ensures { name_day result ≡ self }
    {
        Partition {
            day: self.day,
            pname: self.pname,
        }
    }
}
