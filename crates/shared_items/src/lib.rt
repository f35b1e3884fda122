// Lists in blocks that copies share.
//
// A `SharedItems` has items in the order of their numbers, each number once. A copy shares the blocks (`share`), and an item
// that is put to its place makes one block anew and leaves all others, and the block itself as other copies have it (`put`).
// So a list of which little changes between two copies costs a copy one count a block, and a change one block.
// Caller: glance_board, whose listings share the marks of intervals that didn't change.
//
// The one idea of the proof: an item whose number is above all before a block and below all behind it has its place inside
// the block (`with_item` in specs/Order.antt, proofs/Places.antt). To be changed together: `MOST` and `Block::with`.
#![tactic(auto)]

mod block;
mod items;
pub mod laws;
mod numbered;
mod search;

pub use block::Block;
pub use items::SharedItems;
pub use numbered::Numbered;
