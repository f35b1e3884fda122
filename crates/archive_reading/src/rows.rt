//! Rows that may follow what was read.

ghost use Rattle.std.specs.Prelude.{◌≡◌, ◌↔◌, ◌++◌, [], Some, IsTrue, true, false, IfOk};
ghost use Rattle.std.specs.List.{AllByRecursion};
ghost use Rattle.octet_fields.specs.Exact.{IsOctets};
ghost use Rattle.history_items.specs.Items.{databases_in, items_of};
ghost use Rattle.field_codec.specs.declared.entry.Entry.TheVariants as entries;
ghost use Rattle.field_codec.specs.Entries.{IsArchiveEntry};
ghost use Rattle.archive_images.specs.Entries.{AreAdmitted, IsPlaced};
ghost use Rattle.archive_reading.specs.PartialArchive.{IsHistoryOf, plain_made, HasMarks};

use crate::partial::PartialArchive;
use arch_types::row::{Row, Rows};
use std::alloc::AllocError;

/// Whether the tables and packet names of rows are there.
fn are_placed(made: &PartialArchive, rows: &[Row]) -> bool
    requires { databases_in made.now.history.items ≡ [] }
    ensures placed { IsTrue result ↔ AllByRecursion (IsPlaced made.now.head made.now.history.items) rows.now }
    ensures octets { IsTrue result → AllByRecursion (λ row. IsOctets row.packet) rows.now }
{
    let tables = made.head.tables.as_slice().len();
    let names = made.head.mdb.containers();
    for row in rows {
        row.packet.is_octets();
        if row.table as usize >= tables || row.pname >= names {
            return false;
        }
    }
    true
}

/// Whether these rows may follow; then they do.
pub(crate) fn admit(made: &mut PartialArchive, rows: Rows) -> Result<bool, AllocError>
    requires entry { IsArchiveEntry (entries.Rows rows) }
    requires tables { IsHistoryOf made.old.head made.old.history }
    requires marks { HasMarks (Some made.old) }
    ensures yes { IfOk result (λ ok. ok ≡ true → AreAdmitted (plain_made made.old) rows
        × (made.new.history.items ≡ made.old.history.items ++ items_of rows)) }
    ensures no { IfOk result (λ ok. ok ≡ false → AreAdmitted (plain_made made.old) rows → ⊥) }
    ensures head { (made.new.head ≡ made.old.head) × (made.new.sets.filled ≡ made.old.sets.filled) }
    ensures fills { made.new.tracker.fills ≡ made.old.tracker.fills }
    ensures tables { (made.new.history.tables ≡ made.old.history.tables)
        × (made.new.history.exponent ≡ made.old.history.exponent) }
    ensures marks { IfOk result (λ ok. ok ≡ true → HasMarks (Some made.new)) }
{
    if !are_placed(made, rows.as_slice()) {
        return Ok(false);
    }
    if made.history.limit_passed(rows.as_slice()).is_some() {
        return Ok(false);
    }
    made.history.reserve(rows.len())?;
    made.tracker.reserve_rows(rows.len() as u64)?;
    let first = made.history.len() as u64;
    made.tracker
        .touch(rows.as_slice(), first, made.history.exponent());
    Ok(made.history.add_all(rows))
}
