//! A store with the shelf on which it is published.
//!
//! A publication of a store is both its lists as they are, and what stays of its archive: the head, the exponent and the
//! disk as it was opened (`publication_of` in specs/Publications.antt). Its contents have a mark for each interval with
//! rows, and the set that the store has of it (`contents_of`). A `ShelvedStore` is a store with its shelf. It gives
//! readers, publishes all that there is, and may make a last publication, behind which nothing is published. A call of
//! the store is made between `into_parts` and `beside`, and publishes nothing by itself.
//! Caller: who takes a store in turns, beside readers that wait for no turn.
//!
//! A publication takes the marks of the one before of intervals that neither a row nor a fill came to since, and makes the
//! others anew (`Renews` in specs/Renewing.antt). Which intervals rows came to its caller tells, by the packets that came
//! behind a front; where the one before doesn't have the history up to that front, all marks are made anew.
//!
//! The one idea of the proof: what was made last begins the store's lists and is of its archive (`BeginsStore`, the
//! invariant). Calls of a store only append (proofs/Beginning.antt), so it stays true of the store that they leave.
//! To be changed together: what stays of an archive (`Kept`), `publication_of`, and `OnlyAppends` of archive_store.
#![tactic(auto)]

mod contents;
mod kept;
pub mod laws;
mod shelf;
mod shelved;

pub use contents::contents_of;
pub use kept::{Kept, LastOfStore, OfStore};
pub use shelf::{StoreNote, StoreReader, StoreShelf};
pub use shelved::ShelvedStore;
