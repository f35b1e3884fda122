//! Laws of the definitions, carried by functions that do nothing.

ghost use Rattle.mdb_items.specs.Structure.{DatabaseIsStructured};

/// What the rules and the limits come to for those who use the items of a database.
pub fn structure()
    ensures { DatabaseIsStructured }
{}
