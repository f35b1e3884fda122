// Tests of the archive's history in memory and of what it stands on: worked rows and vectors, each call once with ample memory, and what no clause says.
#![tactic(auto)]

#[cfg(test)]
mod added_rows_tests;
#[cfg(test)]
mod archive_history_tests;
#[cfg(test)]
mod dump_maker_tests;
#[cfg(test)]
mod fill_tracker_tests;
#[cfg(test)]
mod histogram_tests;
#[cfg(test)]
mod history_items_tests;
#[cfg(test)]
mod interval_walks_tests;
#[cfg(test)]
mod late_marks_tests;
#[cfg(test)]
mod limit_counts_tests;
#[cfg(test)]
mod partitions_tests;
#[cfg(test)]
mod parts;
#[cfg(test)]
mod sealed_history_tests;
#[cfg(test)]
mod sealed_sums_tests;
#[cfg(test)]
mod space_packet_tests;
#[cfg(test)]
mod splitter_tests;
#[cfg(test)]
mod yarch_table_tests;
