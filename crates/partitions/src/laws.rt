//! Laws of the definitions, carried by functions that do nothing.

ghost use Rattle.partitions.specs.Laws.{PlacesAreNoted, RowsMayStand, StandsInItsPartition};

/// The partition of a row in the bounds may hold one in them.
pub fn rows_may_stand()
    ensures { RowsMayStand }
{}

/// A row stands in one partition alone.
pub fn stands_in_its_partition()
    ensures { StandsInItsPartition }
{}

/// The places of rows in a partition are places of rows that were noted.
pub fn places_are_noted()
    ensures { PlacesAreNoted }
{}
