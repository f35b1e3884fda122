//! Links from each row noted to the one before it of its partition.

ghost use Rattle.std.specs.Prelude.{◌≡◌, ◌-◌, ◌^◌, ◌<◌, IfSome};
ghost use Rattle.partitions.specs.Links.{place_of_word};

use crate::partition::Partition;
use std::snapshot::Snapshot;

/// Stands where there is no place.
const NO_PLACE: u32 = u32::MAX;

/// What is kept of a row noted (D-131).
#[derive(Drop)]
pub(crate) struct Link {
    /// The place of the row before it of its partition, or `NO_PLACE`.
    earlier: u32,
    /// Its partition, for contracts alone: a snapshot takes no memory.
    noted: Snapshot<Partition>,
}

impl Link {
    /// A row noted in a partition, behind the one at a place, if there is one.
    pub(crate) fn new(partition: &Partition, earlier: Option<u32>) -> Self
        requires { IfSome earlier (λ place. place < 2 ^ 32 - 1) }
        ensures noted { result.noted.value ≡ partition.now }
        ensures earlier { place_of_word result.earlier ≡ earlier }
    {
        Link {
            earlier: earlier.unwrap_or(NO_PLACE),
            noted: Snapshot::of(partition),
        }
    }

    /// The place of the row before it of its partition.
    pub(crate) fn earlier(&self) -> Option<u32>
        ensures { result ≡ place_of_word self.now.earlier }
    {
        if self.earlier == NO_PLACE {
            None
        } else {
            Some(self.earlier)
        }
    }
}
