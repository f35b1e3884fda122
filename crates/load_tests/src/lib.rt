//! Tests of `load` with many jobs, by `run`, over disks and inputs in memory: that its jobs run beside each other, what is left where one of them is
//! refused or the disk fails, what stays of a dump that isn't read to its end, and that each answer is over a history of its own. Which job comes first
//! differs from call to call, and no test goes by it. Of `scan`, that its dump may come in any pieces, up to the limit.
#![tactic(auto)]

#[cfg(test)]
mod calls;
#[cfg(test)]
mod dumps;
#[cfg(test)]
mod failing_tests;
#[cfg(test)]
mod gate_tests;
#[cfg(test)]
mod gates;
#[cfg(test)]
mod glance_tests;
#[cfg(test)]
mod held_disk;
#[cfg(test)]
mod piece_tests;
#[cfg(test)]
mod repeating;
#[cfg(test)]
mod row_tests;
#[cfg(test)]
mod scan_tests;
#[cfg(test)]
mod texts;
