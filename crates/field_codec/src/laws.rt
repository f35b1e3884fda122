//! Laws of the spellings, carried by functions that do nothing.

ghost use Rattle.field_codec.specs.Laws.{SpellingsAreOne, SpellingsAreShort};

/// No two entries have one spelling.
pub fn spellings_are_one()
    ensures { SpellingsAreOne }
{}

/// A spelling is shorter than 2^30 octets.
pub fn spellings_are_short()
    ensures { SpellingsAreShort }
{}
