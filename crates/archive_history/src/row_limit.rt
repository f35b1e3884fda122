//! The limits of a history.

ghost use Rattle.std.specs.Prelude.{◌≡◌};
ghost use Rattle.archive_history.specs.RowLimits.{row_limit};

/// A quantity of a history that has a limit.
#[derive(Clone, Copy, Debug, PartialEq, Eq)]
pub enum RowLimit {
    /// Rows: 4,194,304.
    Rows,
    /// Octets of the rows' packets: 2,147,483,648.
    HistoryOctets,
    /// Rows of table `tm` in an interval: 262,144.
    IntervalRows,
}

impl RowLimit {
    /// The greatest number that the quantity may have.
    pub fn limit(self) -> u64
        ensures { result ≡ row_limit self }
    {
        match self {
            RowLimit::Rows => 4_194_304,
            RowLimit::HistoryOctets => 2_147_483_648,
            RowLimit::IntervalRows => 262_144,
        }
    }
}
