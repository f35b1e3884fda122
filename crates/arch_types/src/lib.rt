// The types that the crates of the archive share, and the definitions that their contracts cite.
//
// In specs/: the space packet of CCSDS 133.0-B and its key (Packet, GenerationTime), a dump (Dump), the order of keys (Order), the history
// and what an ingest adds to it (History), the rows of packets (Arrivals), a table at a front (Table), the
// order of an answer (Directions), and names.
// Laws.antt says of the definitions that are folds what a reader expects of them, and `laws` carries the proofs.
//
// Lists of one type are structs with a model: a contract sees `Rows` as the list of its rows and `Octets` as a list of numbers. `Octets`
// are a part of a shared block, so that a packet is held once and shared by whoever reads it.
//
// Every crate above stands on this one: a change here is proved again everywhere. Later crates only add.
#![tactic(auto)]

pub mod cell;
pub mod direction;
pub mod inserted;
pub mod key;
pub mod laws;
pub mod name;
pub mod octets;
pub mod row;
pub mod row_fault;
pub mod spans;
pub mod steps;
pub mod tables;
