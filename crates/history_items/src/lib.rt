// The archive without its storage: what an ingest answers, which intervals are late, and what is kept of fills and
// faults.
//
// Nothing here knows of a disk, a segment or a thread. A state is a history of items and a fill list. `archive_store`
// keeps such a state on a disk, and proves that its calls answer as is said here.
//
// An item of a history is a row or a mission database (`Item`), though nothing adds a database yet. Positions and fronts
// count items. What tells the two apart is in specs/Items.antt; which database is in force, and which packet names there
// are, is said once, in specs/Databases.antt.
//
// A fill list holds what happened to fills and each fault of the disk, in the order in which it happened. `FillList`
// keeps a place in it for the end of each flight, so that neither such an end nor a fault wants memory after the disk was
// written. What an item notes, a fill, a flight or a fault, and what an addition adds, items or a fill, is in
// specs/Noted.antt, for each kind in one line; the rest is said over these. Which intervals have a fill, and which are in
// flight, is read from the list (specs/Fills.antt), by the last item that says so (`IsLastDone`, `IsBegunLast`). Whether
// an interval is late is said of every position (`IsLate` of specs/Late.antt), and decided by the last change alone
// (`is_late_in`), as `late_marks` decides it of a mark. What holds of the definitions is in specs/Laws.antt, and `laws`
// carries the proofs.
#![tactic(auto)]

mod fill_list;
pub mod fills;
pub mod items;
pub mod laws;

pub use fill_list::FillList;
pub use items::Item;
