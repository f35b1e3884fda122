//! Writes an entry.

ghost use Rattle.std.specs.Prelude.{◌≡◌, ◌<◌, ◌^◌, length, IfOk};
ghost use Rattle.field_codec.specs.Entries.{IsArchiveEntry};
ghost use Rattle.field_codec.specs.Laws.{HasShortSet};
ghost use Rattle.field_codec.specs.Spelling.{entry_octets};

use crate::entry::Entry;
use crate::fills::write_fill;
use crate::head::write_head;
use crate::rows::write_rows;
use crate::seals::{write_log_head, write_seal};
use arch_types::octets::Octets;
use std::alloc::{AllocError, Global};

/// The octets of an entry that the format admits.
fn octets_of(alloc: Global, entry: &Entry) -> Result<Vec<u8>, AllocError>
    requires { IsArchiveEntry entry.now }
    ensures octets { IfOk result (λ out. out.items ≡ entry_octets entry.now) }
    ensures short { IfOk result (λ out. HasShortSet entry.now → length out.items < 2 ^ 30) }
{
    match entry {
        Entry::Head { tables, mdb } => write_head(alloc, tables.as_slice(), mdb),
        Entry::Rows(rows) => write_rows(alloc, rows.as_slice()),
        Entry::Fill {
            interval,
            base,
            set,
        } => write_fill(alloc, *interval, *base, set.as_slice()),
        Entry::Seal(seal) => write_seal(alloc, seal),
        Entry::LogHead { rows } => write_log_head(alloc, *rows),
    }
}

/// The one spelling of an entry that the format admits.
pub fn write_entry(alloc: Global, entry: &Entry) -> Result<Octets, AllocError>
    requires { IsArchiveEntry entry.now }
    ensures octets { IfOk result (λ octets. octets ≡ entry_octets entry.now) }
    ensures short { IfOk result (λ octets. HasShortSet entry.now → length octets < 2 ^ 30) }
{
    let out = octets_of(alloc, entry)?;
    Octets::from_vec(alloc, out)
}
