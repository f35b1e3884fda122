// The store of one process: an archive on a disk that stands for its history at every moment.
//
// A history is rows of tables, the first to come with its key in its table. It stands in the journal in file 0 of the
// disk: a head record with the tables and the mission database, and then a record for each batch that had new rows, and
// for each fill: the set of an interval's segments, over a front of the history. `StandsFilled` (archive_images)
// says which archive an image of the disk is, and which fills it has, `StandsFor` the archive alone,
// `IsArchiveDamagedAt` where it is none, and `laws` that no image is two things. Contracts see a store as `StoreView`
// (specs/StoreView.antt): history, fill list, fills, head, the disk, and the disk of the opening. What each call answers,
// and what each answer leaves, stands in specs/Calls.antt.
// Callers: load_session, retrieval, script_answers, live_archive, archive_verify, and the commands that create, load,
// ask and recover an archive.
//
// The one idea of the proof is in the store's type: it keeps which archives a crash at any moment since the opening may
// have left, whatever archives and entries are (`ArchiveInvariant` of archive_images; file 0 is its log,
// specs/PlainLog.antt), and how the faults stand to the disk's counts (`FaultInvariant`), of the value alone. So
// `is_kept` and `into_disk` hand both out (`CrashInvariant`), and each call proves one step: a record more, an
// unacknowledged record, a record taken back (proofs/Kept.antt, proofs/Healing.antt).
//
// Which intervals are late is read from marks that the type keeps beside history and fill list (`AreMarksOf` of
// fill_tracker): contracts speak of the two lists alone. In memory the rows stand in a table with its partitions for
// each name of the head; their order is kept for contracts alone (archive_history). What an ask names is looked up once
// (src/finding.rt), and plans and replays take what was found. A plan of param_segments shares the sets that stand for
// intervals, and has copies of the rows of those that are late. A replay goes over them by a cursor of replay_merge; a
// step of it borrows them.
// Where rows are read it is by a source of replay_merge, which may refuse, and contracts say what was read where the
// store tells its rows (`TellsRows`, specs/Pages.antt), and what reading leaves (specs/UnreadRows.antt): a store is such a
// source itself. All rows stand in memory as yet, which this crate alone knows (`view_of`, specs/Inside.antt): callers know
// that rows stand on pages where `sealed` is above 0 (`HasPages`), and what holds where it is 0.
// To be changed together: `Applies` of archive_images, archive_reading and `IsBatch`; the limits in archive_history,
// those of refusals, and specs/Limits.antt.
//
// A caller takes a failed write back before it gives the batch again, and gives up a task that it can't build:
//
//     /// Ingests a batch, and then fills each late interval.
//     fn ingest_and_fill<D: Disk>(alloc: Global, store: &mut Store<D>, batch: &Batch) -> Result<(), Refusal> {
//         if let Err(refusal) = store.ingest(alloc, batch) {
//             store.reopen()?;
//             return Err(refusal);
//         }
//         'fills: loop {
//             let Some(task) = store.begin(alloc)? else {
//                 return Ok(());
//             };
//             match Filled::of(alloc, task, store.mdb()) {
//                 Ok(filled) => {
//                     let _ = store.install(filled)?;
//                 }
//                 Err((task, _)) => {
//                     store.abandon(task);
//                     return Err(Refusal::OutOfMemory);
//                 }
//             }
//         }
//     }
#![tactic(auto)]

mod appending;
mod batch;
mod classifying;
mod filling;
mod finding;
mod history_source;
mod ingest;
mod installing;
mod interval_rows;
mod keeping;
pub mod laws;
mod marks;
pub mod print_faults;
mod replaying;
mod retrieving;
mod segments;
mod store;

pub use archive_images::Head;
pub use batch::{Arrival, Arrivals, Batch, Ingested, received_row};
pub use finding::{FoundReplay, FoundRequest, refusal_of_ask};
pub use marks::Mark;
pub use store::Store;
pub use store_fills::{FillTask, Filled};
