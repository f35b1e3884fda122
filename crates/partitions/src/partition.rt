//! A partition.

ghost use Rattle.std.specs.Prelude.{◌≡◌};
ghost use Rattle.partitions.specs.Partition.{partition_of};

use time_text::day_of;

/// A civil day, counted from 1970-01-01, and the number of a packet name. Ordered by day and then by number.
#[derive(Clone, Copy, Debug, PartialEq, Eq, PartialOrd, Ord)]
pub struct Partition {
    pub day: i64,
    pub pname: u16,
}

/// The partition of a row: the day of its time, which is in milliseconds since 1970, and its packet name's number.
pub fn partition_of(time: i64, pname: u16) -> Partition
    ensures { result ≡ partition_of time pname }
{
    Partition {
        day: day_of(time),
        pname,
    }
}
