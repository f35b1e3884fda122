// Tests of what a mission database says: its sheets and octets, what packets say by it, the journal's entries with one, and the plain machine.
#![tactic(auto)]

#[cfg(test)]
mod archive_core_tests;
#[cfg(test)]
mod archive_core_texts;
#[cfg(test)]
mod container_extract_tests;
#[cfg(test)]
mod field_codec_tests;
#[cfg(test)]
mod given;
#[cfg(test)]
mod mdb_model_tests;
#[cfg(test)]
mod mdb_sheets_tests;
