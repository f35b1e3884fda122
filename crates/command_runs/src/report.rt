//! What a call reports.

ghost use Rattle.std.specs.Prelude.{◌≡◌, ◌≤◌};
ghost use Rattle.command_runs.specs.Report.{disk_of_work, loaded, read_only, report_of_work, status_at, unopened};

use refusals::Refusal;

/// What a command did.
#[derive(Debug, Drop)]
pub struct Report {
    pub refusal: Option<Refusal>,
    /// Whether an archive was opened or made.
    pub opened: bool,
    /// The link of a dump that was refused.
    pub link: Option<u16>,
    /// The lengths of the history, before and after.
    pub before: u64,
    pub after: u64,
    /// The packets that were loaded, idle ones counted too.
    pub packets: u64,
    pub new: u64,
    pub duplicates: u64,
    pub idle: u64,
}

/// How a call of the program ended.
#[derive(Debug, Drop)]
pub struct Ended<D> {
    /// The exit status.
    pub status: u8,
    /// The disk that was handed in.
    pub disk: D,
    pub report: Report,
}

impl<D> Ended<D> {
    /// The ending of a command's work on an archive: what it reports, or its refusal where none was opened or made.
    pub fn of_work(work: Result<(D, Report), (D, Refusal)>) -> Self
        ensures disk { result.disk ≡ disk_of_work work }
        ensures report { result.report ≡ report_of_work work }
        ensures status { result.status ≡ status_at (report_of_work work).refusal }
    {
        match work {
            Ok((disk, report)) => Ended::of(disk, report),
            Err((disk, refusal)) => Ended::unopened(disk, Some(refusal)),
        }
    }

    /// The ending of a call with this report.
    fn of(disk: D, report: Report) -> Self
        ensures disk { result.disk ≡ disk }
        ensures report { result.report ≡ report }
        ensures status { result.status ≡ status_at report.refusal }
    {
        let status = match &report.refusal {
            None => 0,
            Some(refusal) => refusal.status(),
        };
        Ended {
            status,
            disk,
            report,
        }
    }

    /// The ending of a call that opened no archive.
    pub fn unopened(disk: D, refusal: Option<Refusal>) -> Self
        ensures disk { result.disk ≡ disk }
        ensures report { result.report ≡ unopened refusal }
        ensures status { result.status ≡ status_at refusal }
    {
        Ended::of(disk, Report::unopened(refusal))
    }
}

/// How many packets a load took in.
#[derive(Clone, Copy, Debug, Default, PartialEq, Eq)]
pub struct LoadCounts {
    /// All packets, idle ones counted too.
    pub packets: u64,
    /// Rows that were there, one for each packet and table.
    pub duplicates: u64,
    pub idle: u64,
}

impl Report {
    /// The report of a call that opened no archive.
    pub fn unopened(refusal: Option<Refusal>) -> Report
        ensures { result ≡ unopened refusal }
    {
        Report {
            refusal,
            opened: false,
            link: None,
            before: 0,
            after: 0,
            packets: 0,
            new: 0,
            duplicates: 0,
            idle: 0,
        }
    }

    /// The report of a call that opened or made an archive with a history of this length, and left it so.
    pub fn read_only(refusal: Option<Refusal>, rows: u64) -> Report
        ensures { result ≡ read_only refusal rows }
    {
        Report {
            refusal,
            opened: true,
            link: None,
            before: rows,
            after: rows,
            packets: 0,
            new: 0,
            duplicates: 0,
            idle: 0,
        }
    }

    /// The report of a load, by the lengths of the history before and after.
    pub fn loaded(
        refusal: Option<Refusal>,
        link: Option<u16>,
        before: u64,
        after: u64,
        counts: LoadCounts,
    ) -> Report
        requires { before ≤ after }
        ensures { result ≡ loaded refusal link before after counts.packets counts.duplicates counts.idle }
    {
        Report {
            refusal,
            opened: true,
            link,
            before,
            after,
            packets: counts.packets,
            new: after - before,
            duplicates: counts.duplicates,
            idle: counts.idle,
        }
    }
}
