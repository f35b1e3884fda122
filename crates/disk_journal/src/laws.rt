// Laws of the format, carried by functions that do nothing.
ghost use Rattle.disk_journal.specs.Laws.{RecordsAreOne};

/// The octets of a file mean one list of records.
pub fn records_are_one()
    ensures { RecordsAreOne }
{}
