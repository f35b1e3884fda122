//! What holds of every made packet and dump, and of the sheets.

ghost use Rattle.dump_maker.specs.Laws.{MadePacketsHaveFields, MadeDumpsAreSplit, MadeSheetsAreSound};

/// The fields of a made packet follow from its place.
pub fn made_packets_have_fields()
    ensures { MadePacketsHaveFields }
{}

/// A made dump is split into the packets that it was made of, and nothing is left.
pub fn made_dumps_are_split()
    ensures { MadeDumpsAreSplit }
{}

/// The sheets break no rule and pass no limit, so a check of them finds a database, or memory wanting.
pub fn made_sheets_are_sound()
    ensures { MadeSheetsAreSound }
{}
