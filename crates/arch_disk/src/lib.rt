// A disk of numbered files that may fail and may lose power, and one in memory.
//
// `Disk` is what the journal is written against. Its one ghost member, a `Device`, holds what the
// values of a disk's type mean: what the files read as, which images a crash may leave now or at a moment since an
// earlier one, a clock of calls, the counts of faults and of failed writes. Between two syncs of a file each range that
// was written, or that a failed write named, and all past the shorter end may hold any octets, the length may be any
// between the old and the new, and all other octets stay. After a sync that answers Ok a crash leaves what a read gives.
//
// `MemDisk` meets this by the list of its calls, newest first: what it reads as and what a crash may leave are
// defined by recursion over that list, so one call more is one equation. `OpaqueDisk` is an opaque disk.
//
// To touch together: the clauses of `Disk` (src/disk.rt), `Device` (specs/Disk.antt) and the meaning of a list of calls
// (specs/CallLog.antt). A crash of a kind (specs/Crash.antt) is one of the images of its moment, by proof.
#![tactic(auto)]

mod call_log;
mod crash;
mod disk;
mod faults;
mod files;
mod memory;
mod opaque_disk;

pub use call_log::{Call, Write};
pub use crash::{Crash, Length, Unsynced};
pub use disk::{Disk, Failed};
pub use faults::FaultCounts;
pub use files::Files;
pub use memory::MemDisk;
pub use opaque_disk::OpaqueDisk;
