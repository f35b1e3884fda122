// Tests of archive_store: worked answers, what replays give, each rule of a record, the limit that a test can reach, and what a disk that fails leaves.
// What plans and fills give stands in archive_fills_tests.
//
// A test lists calls and their answers as data (`Step`), and ends with the row that goes otherwise. Functions are generic in the disk. A head and a store
// are handed on, the store to `into_disk`, and none is ever dropped: the drop of a mission database or of a history costs minutes to prove.
#![tactic(auto)]

#[cfg(test)]
mod answers;
#[cfg(test)]
mod cuts;
#[cfg(test)]
mod faults;
#[cfg(test)]
mod images;
#[cfg(test)]
mod journals;
#[cfg(test)]
mod limits;
#[cfg(test)]
mod openings;
#[cfg(test)]
mod parts;
#[cfg(test)]
mod replays;
#[cfg(test)]
mod steps;
