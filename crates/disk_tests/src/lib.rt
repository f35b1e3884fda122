// Tests of arch_disk, disk_journal, outer_traits and outer_real: images, faults, each call once with ample memory, and real files, which no clause describes.
#![tactic(auto)]

#[cfg(test)]
mod arch_disk_tests;
#[cfg(test)]
mod disk_journal_tests;
#[cfg(test)]
mod ends;
#[cfg(test)]
mod journal_writer_tests;
#[cfg(test)]
mod outer_real_tests;
#[cfg(test)]
mod outer_traits_tests;
#[cfg(test)]
mod watched;
