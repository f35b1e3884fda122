// A table of rows in the order of their keys, which answers at any front of its history.
//
// A row is stored with its position in the history. Contracts see a `Table` as its stored rows in the order of their insertion, and how
// many more go in without memory (`TableView`, specs/Stored.antt). What it answers at a front are the rows with a position below the
// front, in the order of their keys. `laws` ties that to a history: where the stored rows are the table's rows of a history at their
// positions (specs/Placed.antt), the answers are `table_at` and `range_of` of arch_types, and an insert is an ingest. `stored_by_key` walks the
// same rows with their positions, for one who writes a table's rows elsewhere.
// One value holds one table. Callers: scan, which reads all rows; the history, which reads ranges at a front, and the rows of
// a partition by their places.
//
// The rows stand in a `Vec` in the order of their insertion, and an ordered index of block_map names them by key, so that an insert
// moves no row and takes no memory. The one idea of the proof is `IsKeyIndex`: the rows that the entries name, in the order of the entries,
// are the stored rows in the order of their keys. A front is a filter, and to filter an ordered list is to order what passes
// (`filter-order` of arch_types).
//
// To be changed together: `Window` and `is_seen` in specs/Index.antt; the answers and `seen_at` in specs/Stored.antt.
#![tactic(auto)]

pub mod laws;
mod packed_key;
pub mod rows;
pub mod stored_rows;
pub mod table;
