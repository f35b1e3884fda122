//! Reads an entry.

ghost use Rattle.std.specs.Prelude.{◌≡◌, IfOk};
ghost use Rattle.octet_fields.specs.Answers.{ReadsEach, ReadsOnly};
ghost use Rattle.octet_fields.specs.declared.fault.DecodeError.TheVariants.{OutOfMemory};
ghost use Rattle.field_codec.specs.Entries.{IsArchiveEntry};
ghost use Rattle.field_codec.specs.Spelling.{entry_octets};

use crate::entry::Entry;
use crate::fault::NotAnEntry;
use crate::fills::read_fill;
use crate::head::read_head;
use crate::rows::read_rows;
use crate::seals::read_log_head;
use arch_types::octets::Octets;
use octet_fields::u8_at;
use seal_codec::read_seal;
use std::alloc::Global;

/// The entry that all of the octets spell. They are copied once, and its packets are slices of the copy.
pub fn read_entry(alloc: Global, octets: &[u8]) -> Result<Entry, NotAnEntry>
    ensures spelled { ReadsOnly IsArchiveEntry entry_octets (λ entry. entry) octets.now result }
    ensures each { ReadsEach IsArchiveEntry entry_octets (λ entry. entry) (λ e. e ≡ OutOfMemory) octets.now result }
{
    let block = Octets::from_slice(alloc, octets)?;
    read_shared(alloc, &block)
}

/// The entry that all of the octets spell. Its packets are slices of their block.
pub fn read_shared(alloc: Global, octets: &Octets) -> Result<Entry, NotAnEntry>
    ensures spelled { ReadsOnly IsArchiveEntry entry_octets (λ entry. entry) octets.now result }
    ensures each { ReadsEach IsArchiveEntry entry_octets (λ entry. entry) (λ e. e ≡ OutOfMemory) octets.now result }
{
    entry_of(alloc, octets, octets.as_slice())
}

/// The entry that the octets of a block spell.
fn entry_of(alloc: Global, block: &Octets, octets: &[u8]) -> Result<Entry, NotAnEntry>
    requires { octets.now ≡ block.now }
    ensures spelled { ReadsOnly IsArchiveEntry entry_octets (λ entry. entry) octets.now result }
    ensures each { ReadsEach IsArchiveEntry entry_octets (λ entry. entry) (λ e. e ≡ OutOfMemory) octets.now result }
{
    let (kind, rest) = u8_at(octets)?;
    match kind {
        1 => {
            let (tables, mdb) = read_head(alloc, rest)?;
            Ok(Entry::Head { tables, mdb })
        }
        2 => Ok(Entry::Rows(read_rows(alloc, block, rest)?)),
        3 => {
            let (interval, base, set) = read_fill(block, rest)?;
            Ok(Entry::Fill {
                interval,
                base,
                set,
            })
        }
        4 => Ok(Entry::Seal(read_seal(alloc, rest)?)),
        5 => Ok(Entry::LogHead {
            rows: read_log_head(rest)?,
        }),
        _ => Err(NotAnEntry::Malformed),
    }
}
