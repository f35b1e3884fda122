// Tests of runs and seals: a worked page, index and footer octet by octet; runs on a disk in memory, read back by page and by key,
// octets of one changed, each call of the disk failing once; reads of an open run that fail; a worked seal octet by octet.
#![tactic(auto)]

#[cfg(test)]
mod run_files_tests;
#[cfg(test)]
mod run_pages_tests;
#[cfg(test)]
mod run_reads_tests;
#[cfg(test)]
mod seal_codec_tests;
