// Tests of sealed rows as a source, and of two sources as one: two runs that overlap and one of another table, on a disk in memory that is
// opaque; rows by range, partition and front, positions of keys, each read failing once, octets changed; the same of two sources as one.
#![tactic(auto)]

#[cfg(test)]
mod sealed_rows_tests;
