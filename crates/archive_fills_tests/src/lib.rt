// Tests of fills: how archive_store begins, builds, installs and gives them up, what a disk that fails leaves of an install, what crashes leave, and which
// records of fills are damage; many flights at once, and thousands of fills; what plans over ranges have of late intervals; how store_fills keeps a fill in place of another; what archive_verify
// finds of those that aren't right; and what a reader sees of a store that is published.
//
// A test lists calls and their answers as data (`Step`), or the records of a journal and what is found there. Only `of_store` and its like own a store and
// lend it, and they are generic in the disk and give the disk back at the end: in a function over `MemDisk`, or with a store that is dropped, the same costs
// minutes to prove.
#![tactic(auto)]

#[cfg(test)]
mod calls;
#[cfg(test)]
mod crashes;
#[cfg(test)]
mod faults;
#[cfg(test)]
mod fills;
#[cfg(test)]
mod journals;
#[cfg(test)]
mod many;
#[cfg(test)]
mod parts;
#[cfg(test)]
mod plan_ranges;
#[cfg(test)]
mod plans;
#[cfg(test)]
mod records;
#[cfg(test)]
mod shelves;
#[cfg(test)]
mod steps;
#[cfg(test)]
mod store_fills_tests;
#[cfg(test)]
mod verify_cases;
#[cfg(test)]
mod verify_journals;
#[cfg(test)]
mod verify_tests;
