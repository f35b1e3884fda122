// Ordered indexes from keys to values whose insert takes no memory: their room is reserved beforehand. So a caller that
// must not fail half-way reserves first, where want of memory can still be answered, and then inserts.
// Contracts see an `Index` or a `GrowingIndex` as its entries in strictly rising key order, and its room (`Listing`,
// specs/Index.antt); a look-up, an insert and a removal are the list functions that std's `BTreeMap` has for its entries.
// Callers of `GrowingIndex`, from which nothing is taken out: the tables (key to place of a row), their partitions, the rows
// of each interval. Callers of `Index`: the late intervals, the histogram, and the places of fills.
//
// An index takes no memory before its first `reserve`; then it has a body.
// The entries stand in blocks of at most `CAPACITY` entries. A full block is split, and its upper part goes into a spare
// block. The one idea of the proof: a block pays for its split by the entries that it has beyond `KEEP` (`excess_of`), since
// each part has at most so many; so `paid + room < (spare + 1) * (CAPACITY - KEEP)` promises every insert the spare block
// that it may need, and no split has ever to be counted. What was paid stands in a field. The two indexes are one, and differ
// in who pays (src/policy.rt): in a growing index the entries beyond `KEEP` alone. An `Index` gives the place of an
// entry that is taken out back to the room, so each of its entries pays, and each block but the first has `MIN_FILL`.
// The searches need two facts alone: a key that is not below an entry is above those before it, and a key below an entry
// is below those after it (proofs/Rising.antt). They begin at the end, since keys mostly come in order.
// To be changed together: the sizes in src/blocks.rt and src/policy.rt, `IsBlocks` in specs/Blocks.antt, `IsIndex` in
// specs/Index.antt.
//
// A caller takes all memory before it changes anything:
//
//     /// Notes the first place of each key. For want of memory it notes none.
//     fn note_places(index: &mut GrowingIndex<u32, u64>, keys: &[u32]) -> Result<(), AllocError> {
//         index.reserve(keys.len())?;
//         for i in 0..keys.len() {
//             // A key that is there keeps its value, which is the answer.
//             let _ = index.insert(keys[i], i as u64);
//         }
//         Ok(())
//     }
#![tactic(auto)]

pub mod blocks;
mod body;
pub mod entries;
pub mod growing_index;
pub mod index;
pub mod policy;
pub mod removal;
pub mod search;
mod values;
