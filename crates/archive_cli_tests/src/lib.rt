//! Tests of the program's calls by `run`, over disks, inputs and outputs in memory: `scan` and `values`, and the commands on an archive.
#![tactic(auto)]

#[cfg(test)]
mod archive_tests;
#[cfg(test)]
mod calls;
#[cfg(test)]
mod day_tests;
#[cfg(test)]
mod failing_tests;
#[cfg(test)]
mod faults;
#[cfg(test)]
mod files;
#[cfg(test)]
mod in_a_row;
#[cfg(test)]
mod late_tests;
#[cfg(test)]
mod make_tests;
#[cfg(test)]
mod report_tests;
#[cfg(test)]
mod scan_tests;
#[cfg(test)]
mod sql_tests;
#[cfg(test)]
mod values_tests;
#[cfg(test)]
mod write_tests;
