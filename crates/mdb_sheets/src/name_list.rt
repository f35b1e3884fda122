//! Names in one text.

ghost use Rattle.std.specs.Prelude.{◌≡◌, ◌==◌, map, IfOk};
ghost use Rattle.std.specs.List.{slice_split};
ghost use Rattle.mdb_sheets.specs.Asks.{listed_names};

use arch_types::name::{Name, Names};
use arch_types::octets::Octets;
use std::alloc::{AllocError, Global};

/// The parts of a text between its `;`.
fn parts(alloc: Global, text: &[u8]) -> Result<Vec<&[u8]>, AllocError>
    ensures { IfOk result (λ parts. map (λ part. part.now) parts.items ≡ slice_split (λ b. b == 59) text.now) }
{
    text.split(|b| *b == b';').collect(alloc)
}

/// The names that a text lists, joined by `;`, or `None` where one of them is no name. They share one copy of the text.
pub(crate) fn listed_names(alloc: Global, text: &[u8]) -> Result<Option<Names>, AllocError>
    ensures { IfOk result (λ names. names ≡ listed_names text.now) }
{
    let copy = Octets::from_slice(alloc, text)?;
    let parts = parts(alloc, text)?;
    let mut names = Names::new(alloc);
    let mut start = 0;
    for part in parts.as_slice() {
        let end = start + part.len();
        let Some(name) = Name::of(copy.slice(start, end)?) else {
            return Ok(None);
        };
        names.push(name)?;
        start = end + 1;
    }
    Ok(Some(names))
}
