//! What is done behind all that a command writes.

ghost use Rattle.command_runs.specs.Healing.{TriesToHeal};

use arch_disk::Disk;
use archive_store::Store;

/// Takes a failed write back, where one is pending, so that a program that opens the archive after it reads no gate that the
/// medium may lack (D-57). It is tried once: whether it succeeds or not, what was refused stays refused.
pub fn heal<D: Disk>(store: &mut Store<D>)
    ensures { TriesToHeal D.device store.old store.new }
{
    store.is_kept();
    let _ = store.reopen();
}
