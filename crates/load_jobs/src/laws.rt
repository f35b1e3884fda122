//! Laws of the definitions, carried by functions that do nothing.

ghost use Rattle.load_jobs.specs.Laws.{AFaultIsTheOne, FaultIsOfTheBatch, OneLinkReaches};

use arch_disk::Disk;

/// Where one link alone put rows that are told, the history is the first one followed by those of the packets that it
/// sent.
pub fn one_link_reaches<D: Disk, T>()
    ensures { OneLinkReaches T D.device }
{}

/// The fault that a link leaves by which the disk failed is that of its batch in hand, or of a read.
pub fn fault_is_of_the_batch<D: Disk, T>()
    ensures { FaultIsOfTheBatch T D.device }
{}

/// A fault by a failed write that came during turns is the only one, beside those of reads.
pub fn a_fault_is_the_one<D: Disk>()
    ensures { AFaultIsTheOne D.device }
{}
