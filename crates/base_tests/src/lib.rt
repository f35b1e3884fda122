// Tests of arch_types, block_map, command_words, load_progress, octet_fields, packed_cells, refusals, shared_items, time_text and varints: worked rows, vectors, each call once with ample memory, what no clause says.
#![tactic(auto)]

#[cfg(test)]
mod arch_types_tests;
#[cfg(test)]
mod block_map_tests;
#[cfg(test)]
mod command_words_tests;
#[cfg(test)]
mod ends;
#[cfg(test)]
mod load_progress_tests;
#[cfg(test)]
mod octet_fields_tests;
#[cfg(test)]
mod packed_cells_tests;
#[cfg(test)]
mod refusals_tests;
#[cfg(test)]
mod shared_items_tests;
#[cfg(test)]
mod time_text_tests;
#[cfg(test)]
mod varints_tests;
