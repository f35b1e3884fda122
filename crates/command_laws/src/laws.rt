//! The clauses of the commands, carried by functions that do nothing.

ghost use Rattle.command_laws.specs.Create.{CreateClause};
ghost use Rattle.command_laws.specs.Load.{LoadClause};
ghost use Rattle.command_laws.specs.Make.{MakeClause};
ghost use Rattle.command_laws.specs.Query.{QueryClause};
ghost use Rattle.command_laws.specs.Recover.{RecoverClause};
ghost use Rattle.command_laws.specs.Scan.{ScanClause};
ghost use Rattle.command_laws.specs.Sql.{SqlClause};
ghost use Rattle.command_laws.specs.Values.{ValuesClause};
ghost use Rattle.command_laws.specs.Verify.{VerifyClause};
ghost use Rattle.command_laws.specs.Watched.{WatchedJobsAgree};

use arch_disk::Disk;

/// `scan` prints the first packet of each key, in the order of the keys, and asks no disk.
pub fn scan_clause<D: Disk>()
    ensures { ScanClause D.device }
{}

/// `values` prints the cells that extracting these packets gives of one parameter, and asks no disk.
pub fn values_clause<D: Disk>()
    ensures { ValuesClause D.device }
{}

/// `create` makes an archive of the head alone where there was none, at each moment of a crash too.
pub fn create_clause<D: Disk>()
    ensures { CreateClause D.device }
{}

/// `load` lets the history grow by first arrivals of its dumps, each by a link of its own, answers over histories on
/// the way, and leaves no interval late; a crash at any moment leaves such a history too.
pub fn load_clause<D: Disk>()
    ensures { LoadClause D.device }
{}

/// `make` makes an archive where there is none, as `create` does, and loads made packets into it, as `load` does files
/// of them; at status 0 it prints their summary.
pub fn make_clause<D: Disk>()
    ensures { MakeClause D.device }
{}

/// `query --sql` answers each statement over the whole history, and changes neither that nor the disk.
pub fn sql_clause<D: Disk>()
    ensures { SqlClause D.device }
{}

/// `query --ask` answers each ask by the fills and the rows of late intervals, which is the answer over the whole
/// history where the image is sound; it changes neither that nor the disk.
pub fn query_clause<D: Disk>()
    ensures { QueryClause D.device }
{}

/// `recover` leaves the history, and at status 0 no interval late.
pub fn recover_clause<D: Disk>()
    ensures { RecoverClause D.device }
{}

/// `verify` leaves all, finds exactly a sound archive sound, and tells the first mismatch of any other.
pub fn verify_clause<D: Disk>()
    ensures { VerifyClause D.device }
{}

/// What a terminal is shown of `load` and `make` is counted as their links send it.
pub fn watched_jobs_agree()
    ensures { WatchedJobsAgree }
{}
