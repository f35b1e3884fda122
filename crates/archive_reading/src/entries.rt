//! An entry that may follow what was read.

ghost use Rattle.std.specs.Prelude.{◌≡◌, ◌++◌, [], ◌∷◌, Some, true, false, IfOk};
ghost use Rattle.field_codec.specs.declared.entry.Entry.{Entry as AnEntry};
ghost use Rattle.field_codec.specs.Spelling.{entry_octets};
ghost use Rattle.archive_images.specs.Entries.{Applies, FilledArchive, dones_of};
ghost use Rattle.archive_reading.specs.PartialArchive.{archive_made, fills_made, HasMarks, IsReadHistory};
ghost use Rattle.archive_images.specs.Stands.{Breaks};

use crate::fills::take_fill;
use crate::partial::{PartialArchive, of_head};
use crate::rows::admit;
use arch_types::octets::Octets;
use arch_types::row::Rows;
use archive_images::Head;
use field_codec::{Entry, NotAnEntry, read_shared};
use std::alloc::{AllocError, Global};

/// Whether an entry with these octets may follow what was read; then it does. The one error is want of memory, and then what
/// was read serves for nothing more.
pub fn take_in(
    alloc: Global,
    made: &mut Option<PartialArchive>,
    body: &Octets,
) -> Result<bool, AllocError>
    requires tables { IsReadHistory made.old }
    requires marks { HasMarks made.old }
    ensures yes { IfOk result (λ ok. ok ≡ true → (entry : AnEntry) × (body.now ≡ entry_octets entry)
        × (after : FilledArchive) × (archive_made made.new ≡ Some after)
        × Applies (archive_made made.old) entry after
        × (fills_made made.new ≡ fills_made made.old ++ dones_of (entry ∷ []))) }
    ensures no { IfOk result (λ ok. ok ≡ false → Breaks (archive_made made.old) body.now) }
    ensures tables { IsReadHistory made.new }
    ensures marks { IfOk result (λ ok. ok ≡ true → HasMarks made.new) }
{
    match read_shared(alloc, body) {
        Err(NotAnEntry::OutOfMemory) => Err(AllocError),
        Err(NotAnEntry::Malformed) => Ok(false),
        Ok(Entry::Head { tables, mdb }) => {
            if made.is_some() {
                return Ok(false);
            }
            let begun = of_head(alloc, Head { tables, mdb })?;
            *made = Some(begun);
            Ok(true)
        }
        Ok(Entry::Rows(rows)) => match made {
            Some(made) => admit(made, rows),
            None => Ok(false),
        },
        Ok(
            Entry::Fill {
                interval,
                base,
                set,
            },
        ) => take_fill(alloc, made, interval, base, set),
        Ok(Entry::Seal(_seal)) => Ok(false),
        Ok(Entry::LogHead { rows: _rows }) => Ok(false),
    }
}
