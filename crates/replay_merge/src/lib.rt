// Replays: the rows of a table with a time in a range and a packet name of some, in key order, as they stood at a front.
//
// A `RowSource` gives the rows below a front of one partition, a day and a packet name, or of several in a range of times. What else than
// rows has a position in its history is not known here: it tells the rows below each front, and nothing here counts them. What reading
// leaves of a source, it says by a relation of its own (`leaves`), which whoever reads it hands on. A `Cursor`
// goes over the partitions that it was given, day after day, and hands their rows on piece by piece: what the calls of `next` gave is the
// replay, whatever was added to the source in the meantime. Contracts see it as a `CursorView` (specs/Cursor.antt), and `rest_of` is what
// it has still to give. What the replay of a request is stands here alone (`replay_of`, specs/Replay.antt): the store and the plain machine
// both say it by that.
// Callers: the store is a source, and opens and continues replays; ssql_select asks a source for the rows of a day.
//
// The one idea of the proof: days in order, because a key begins with its time, so that the rows of a day's partitions come before
// those of any later day. A step reads days until one has a row, and keeps what it can't give yet. No clause of `next` needs that the
// source tells the same at each call: a step keeps what was asked, and what is left is of the rows below the front alone
// (`laws::rest_at_front`), so that the pieces join also where the source has grown.
// To be changed together: the order of partitions (`partition_cmp`) and that of keys, which both begin with the time.
//
// A caller goes on until a piece is empty:
//
//     /// How many rows a replay has still to give, in pieces of at most 64.
//     fn count_rows<R: RowSource>(alloc: Global, cursor: &mut Cursor, source: &mut R) -> Result<usize, RowFault> {
//         let mut count = 0;
//         'pieces: loop {
//             let rows = cursor.next(alloc, source, 64)?;
//             if rows.len() == 0 {
//                 return Ok(count);
//             }
//             count += rows.len();
//         }
//     }
#![tactic(auto)]

mod ahead;
pub mod cursor;
pub mod day_range;
mod fetch;
pub mod laws;
mod listed_names;
pub mod row_source;
mod wanted;
