//! The octets of a mission database's items, both ways.
//!
//! Stands for: what each item is spelled as (`specs/Spelling.antt`), and readers on lists that read it (`specs/Reading.antt`). Called by
//! the database, which spells and reads its three lists by them.
#![tactic(auto)]

mod codec;
pub mod reading;
pub mod spelling;
