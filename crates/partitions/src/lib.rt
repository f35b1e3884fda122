// Partitions: which civil days and packet names hold rows of a table, and which rows those are.
//
// A partition is one day and one packet name (specs/Partition.antt). Contracts see `Partitions` as the list of the
// partition of each row that was noted, in order, and its room (`PartitionsView`, specs/Partitions.antt). `pruned` gives
// those that hold a row and in which one may stand that has its time and its packet name in given bounds, so that a reader
// passes over all others: the partition of a row in the bounds is never passed over (`RowsMayStand`, specs/Laws.antt).
// `places_of` gives the places of one partition's rows (specs/Places.antt), so that a reader pays for no other row of that
// day. specs/Rows.antt says which rows of a history these are. `steps_of` counts them and no more than a reader asks, so that
// one who has another way to the same rows may weigh the two.
// Callers: the history notes each row; replays and scripts ask for the partitions of their bounds and for the rows of each.
//
// Of rows that are in memory no longer there are the numbers alone: `PartitionCounts` (src/counts.rt) has how many rows each partition
// has, and gives those in bounds as `Partitions` does.
//
// The partitions stand in two indexes, by day and by packet name, which hold the same ones (`AreIndexed`,
// specs/Partitions.antt). The first has the place of each partition's last row, and a link leads from each row to the one
// before it of its partition (specs/Links.antt). The idea of that proof: the places below one are the last of them, and
// then those below that one (`up_to_last`, proofs/LastPlaces.antt).
// Without a list of names `pruned` walks the days of the first index. With one it goes through two rising lists at once,
// the second index and the name days that are wanted, and leaps in each to where the other stands; what it gathers it
// puts in order. The one idea of its proof: what is given so far, and those of the entries left that are wanted, are
// together all entries that are wanted (proofs/Leaps.antt); so what a leap passes over has only to be unwanted.
// To be changed together: the order of `Partition`'s fields and `partition_cmp`; that of `NameDay`'s, `name_day_cmp`,
// and `NameDayFilter::first_from`, which leaps in that order; `NO_PLACE` and `place_of_word`.
#![tactic(auto)]

pub mod bounds;
pub mod chain_steps;
pub mod counts;
mod days;
mod indexes;
pub mod laws;
mod links;
pub mod lists;
mod name_day;
mod name_day_filter;
pub mod partition;
pub mod partitions;
pub mod places;
pub mod rows;
mod sorted_names;
