//! Laws of the spellings, carried by functions that do nothing.

ghost use Rattle.seal_codec.specs.Laws.{SealsAreOne};

/// No two seals have one spelling, and no spelling begins another.
pub fn seals_are_one()
    ensures { SealsAreOne }
{}
