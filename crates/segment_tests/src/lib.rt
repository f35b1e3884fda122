// Tests of segments and of sets of them: worked octets both ways, a table of widths, groups that alternate, full segments,
// refusals, printed texts, each call once with ample memory.
#![tactic(auto)]

#[cfg(test)]
mod ordered;
#[cfg(test)]
mod segment_codec_tests;
#[cfg(test)]
mod set_range_tests;
#[cfg(test)]
mod set_reading_tests;
#[cfg(test)]
mod set_tests;
