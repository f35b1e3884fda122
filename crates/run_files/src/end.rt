//! The index and the footer at the end of a run file.

ghost use Rattle.std.specs.Prelude.{◌≡◌, ◌+◌, ◌-◌, ◌*◌, None, IsTrue, length, take, drop, OnOk, IfOk, IfErr, IfSome};
ghost use Rattle.arch_disk.specs.Disk.{NoFault, OnlyReads};
ghost use Rattle.run_pages.specs.Damage.{HasIndex, HasNoIndex};
ghost use Rattle.run_pages.specs.Footer.{IsFooter, footer_octets};
ghost use Rattle.run_files.specs.Faults.{IsLookFault};

use crate::RunFault;
use crate::run_index::RunIndex;
use crate::steps::{len_of, octets_at};
use arch_disk::Disk;
use octet_fields::DecodeError;
use run_pages::{ENTRY_SIZE, FOOTER_SIZE, Footer, is_index, read_footer, read_index};
use std::alloc::Global;

/// The octets of the index that a footer names, where as many stand between its octet and the footer.
fn index_size(footer: Footer, len: u64) -> Option<u64>
    ensures some { IfSome result (λ size. (size ≡ 24 * footer.pages) × (footer.at + size + 20 ≡ len)) }
    ensures none { result ≡ None → footer.at + 24 * footer.pages + 20 ≡ len → ⊥ }
{
    let size = ENTRY_SIZE * u64::from(footer.pages);
    let end = footer.at.checked_add(size)?;
    if end.checked_add(FOOTER_SIZE)? != len {
        return None;
    }
    Some(size)
}

/// The footer at the end of a file of that length, or none where it has none.
fn footer_at_end<D: Disk>(
    alloc: Global,
    disk: &mut D,
    file: u32,
    len: u64,
) -> Result<Option<Footer>, RunFault>
    requires { IsTrue D.device.is_transparent → len ≡ length (D.device.reads disk.old file) }
    ensures some { IsTrue D.device.is_transparent → IfOk result (λ end. IfSome end (λ footer.
        IsFooter footer × (take 20 (drop (len - 20) (D.device.reads disk.old file)) ≡ footer_octets footer))) }
    ensures none { IsTrue D.device.is_transparent → IfOk result (λ end. end ≡ None →
        HasNoIndex (D.device.reads disk.old file)) }
    ensures refused { IfErr result (IsLookFault D.device disk.old disk.new) }
    ensures told { OnOk result (NoFault D.device disk.old disk.new) }
    ensures looked { OnlyReads D.device disk.old disk.new }
{
    if len < FOOTER_SIZE {
        return Ok(None);
    }
    let octets = octets_at(alloc, disk, file, len - FOOTER_SIZE, FOOTER_SIZE as u32)?;
    Ok(read_footer(octets.as_slice()))
}

/// The index and the footer at the end of a file, or none where it has none. An index of 4 GiB or more is want of memory.
pub(crate) fn read_end<D: Disk>(
    alloc: Global,
    disk: &mut D,
    file: u32,
) -> Result<Option<RunIndex>, RunFault>
    ensures some { IsTrue D.device.is_transparent → IfOk result (λ end. IfSome end (λ index.
        HasIndex (D.device.reads disk.old file) index.entries.items index.footer)) }
    ensures none { IsTrue D.device.is_transparent → IfOk result (λ end. end ≡ None →
        HasNoIndex (D.device.reads disk.old file)) }
    ensures refused { IfErr result (IsLookFault D.device disk.old disk.new) }
    ensures told { OnOk result (NoFault D.device disk.old disk.new) }
    ensures looked { OnlyReads D.device disk.old disk.new }
{
    let len = len_of(disk, file)?;
    let Some(footer) = footer_at_end(alloc, disk, file, len)? else {
        return Ok(None);
    };
    let Some(size) = index_size(footer, len) else {
        return Ok(None);
    };
    let Ok(size) = u32::try_from(size) else {
        return Err(RunFault::OutOfMemory);
    };
    let octets = octets_at(alloc, disk, file, footer.at, size)?;
    let entries = match read_index(alloc, octets.as_slice(), footer.pages) {
        Ok(entries) => entries,
        Err(DecodeError::OutOfMemory) => return Err(RunFault::OutOfMemory),
        Err(DecodeError::Malformed) => return Ok(None),
    };
    if !is_index(&entries, footer) {
        return Ok(None);
    }
    Ok(Some(RunIndex { entries, footer }))
}
