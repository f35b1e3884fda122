//! What is reported of a load that was refused.

ghost use Rattle.std.specs.Prelude.{◌≡◌, ◌≤◌, IfNone, IfSome, Some};
ghost use Rattle.command_runs.specs.Report.{loaded};
ghost use Rattle.load_command.specs.Loading.{IsNothingReported, IsReported};

use command_runs::report::{LoadCounts, Report};
use live_session::ReportedRefusal;
use refusals::Refusal;

/// What is reported of a load: what is of its jobs, and where that is nothing, why what was late still isn't filled.
pub fn reported_of_load(
    reported: Option<ReportedRefusal>,
    filled: Result<u64, Refusal>,
) -> Option<ReportedRefusal>
    ensures reported { IfSome result (IsReported reported filled) }
    ensures nothing { IfNone result (IsNothingReported reported filled) }
{
    match reported {
        Some(reported) => Some(reported),
        None => match filled {
            Ok(_) => None,
            Err(refusal) => Some(ReportedRefusal {
                refusal,
                link: None,
            }),
        },
    }
}

/// The report of a load that was refused behind its jobs, by the lengths of the history before and after.
pub fn stopped(before: u64, after: u64, link: Option<u16>, refusal: Refusal) -> Report
    requires { before ≤ after }
    ensures { result ≡ loaded (Some refusal) link before after 0 0 0 }
{
    let counts = LoadCounts::default();
    Report::loaded(Some(refusal), link, before, after, counts)
}
