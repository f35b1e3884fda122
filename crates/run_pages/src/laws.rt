//! Laws of runs, carried by functions that do nothing.

ghost use Rattle.run_pages.specs.Laws.{RunDamageIsOne, EachIsRunOrDamaged, RunsAreOne, RunsAreWhole, WholePagesAreRuns};

/// The octets of a file are a run of one list of rows at most.
pub fn runs_are_one()
    ensures { RunsAreOne }
{}

/// A run is damaged nowhere.
pub fn runs_are_whole()
    ensures { RunsAreWhole }
{}

/// A file is damaged at one octet at most: that of the first page that is broken, or 0 where it has no index.
pub fn run_damage_is_one()
    ensures { RunDamageIsOne }
{}

/// A file that is no run is damaged at some octet.
pub fn each_is_run_or_damaged()
    ensures { EachIsRunOrDamaged }
{}

/// A file with an index, whose pages are all whole, is a run of their rows.
pub fn whole_pages_are_runs()
    ensures { WholePagesAreRuns }
{}
