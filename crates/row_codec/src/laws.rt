//! Laws of the spelling, carried by functions that do nothing.

ghost use Rattle.row_codec.specs.Laws.{RowSpellingsAreOne};

/// No row's spelling begins another's.
pub fn row_spellings_are_one()
    ensures { RowSpellingsAreOne }
{}
