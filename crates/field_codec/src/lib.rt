// The entries of the archive's journal as octets, both ways (docs/FORMATS.md draws them).
//
// An entry is a head, which has the archive's tables and its mission database, rows, a fill, a seal, or the head of a log behind a seal. `IsArchiveEntry` of specs/Entries.antt says which values the
// format admits by itself, and `entry_octets` of specs/Spelling.antt what each is spelled as: `write_entry` gives just that, and `read_entry`
// accepts these spellings and nothing else, so that an entry has one (`laws`). That a row's table and packet name exist, and that its key is
// new, is asked by the store, which alone calls this crate: it writes one entry a record (`write_head` and `put_rows`; `write_entry` is both in one),
// and reads them all when it opens. A row by itself is row_codec's, and what a seal says seal_codec's; no store writes a seal yet.
//
// The one idea of the proof: what is read is a composition of exact readers (octet_fields): rows one behind the other, and the opening of a head;
// the code mirrors it. Behind the opening stands the database to the end of the octets, read by mdb_model.
//
// `read_shared` copies no octet: the packets are slices of the block that the octets are in. A new kind of entry wants, together, a variant, a line
// each of `IsArchiveEntry`, `kind_of` and `body_octets`, an arm each of `octets_of` and `entry_of`, and its lemmas in proofs/EntryKinds.antt.
#![tactic(auto)]

mod entry;
mod fault;
mod fills;
mod head;
pub mod laws;
mod opening;
mod reading;
mod rows;
mod seals;
mod writing;

pub use entry::Entry;
pub use fault::NotAnEntry;
pub use fills::{fill_entry_len, put_fill};
pub use head::write_head;
pub use reading::{read_entry, read_shared};
pub use rows::{put_rows, rows_entry_len};
pub use writing::write_entry;
