// The edge to the system: files as inputs, the standard streams, the clock, and a folder as a disk.
//
// What the crates below ask of the outside, `outer_traits` and `arch_disk` as traits, is met here by calls of the system. No contract can say
// what a file holds or what a terminal takes. So these objects tell no contents, and their clauses on contents promise nothing: proved
// are safety, the ranges of what they answer, and their counts of faults, each raised exactly where a call failed. That each method makes the
// calls of the system that its name says, and that the system does them, is what a reader has to trust: src/ is short, to be read whole.
//
// A call that a signal interrupts is made again, and a write to the disk that took some octets goes on with the rest.
//
// `inputs`, `sink` and `clock` are the objects of a command that reads and prints; `pipes` reads an input that has to be waited for. `disk`
// counts the failed calls of the disk, `folder` makes them on files that it locks, and `handles` keeps a few of these files open; `lock` is
// the one by which other programs are kept off, until the sink gives it back. `watch` counts what passes the gate of a
// load, and shows it on a terminal until the sink ends it. `streams` keeps the standard streams from all of them. The
// program's `main` makes one of each, `streams` first, and hands them to the top call; no other crate names these types. `memory` tells the
// C library to keep memory that is given back.
#![tactic(auto)]

mod clock;
mod disk;
mod folder;
mod handles;
mod inputs;
mod lock;
mod memory;
mod pipes;
mod sink;
mod streams;
mod watch;

pub use clock::RealClock;
pub use disk::RealDisk;
pub use inputs::{RealInputs, RealSource};
pub use lock::ArchiveLock;
pub use memory::keep_freed_memory;
pub use sink::RealSink;
pub use streams::StandardStreams;
pub use watch::Watch;
