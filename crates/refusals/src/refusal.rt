//! What a call answers where it doesn't do what it was asked.

ghost use Rattle.std.specs.Prelude.{◌≡◌, ◌<◌};
ghost use Rattle.refusals.specs.Refusal.{status_of};
ghost use Rattle.refusals.specs.Limits.{limit_of};

use arch_types::key::Key;
use arch_types::name::Name;
use arch_types::octets::Octets;
use arch_types::row_fault::RowFault;
use intervals::Interval;
use outer_traits::print_fault::PrintFault;
use std::alloc::AllocError;

/// Why the rest of a dump is no packet.
#[derive(Clone, Copy, Debug, PartialEq, Eq)]
pub enum BadKind {
    /// It begins with another packet version number than 000.
    Version,
    /// It ends inside a packet.
    Truncated,
}

/// Which sheet of comma-separated values.
#[derive(Clone, Copy, Debug, PartialEq, Eq)]
pub enum SheetName {
    Parameters,
    Calibrations,
    Containers,
    Asks,
}

/// A quantity that has a limit.
#[derive(Clone, Copy, Debug, PartialEq, Eq)]
pub enum Which {
    /// Octets of a dump: 268,435,456.
    DumpOctets,
    /// Rows in a history: 4,194,304.
    Rows,
    /// Octets of the packets in a history: 2,147,483,648.
    HistoryOctets,
    /// Rows of table `tm` in an interval: 262,144.
    IntervalRows,
    /// Dumps of one load: 16.
    Dumps,
    /// Fillers of one load: 8.
    Fillers,
    /// The greatest link number: 255.
    Links,
    /// Asks of a sheet: 256.
    Asks,
    /// The greatest number of a new file: 99,999,999.
    Files,
    /// Octets of a sheet: 4,194,304.
    SheetOctets,
    /// Parameters of a mission database: 4,096.
    Parameters,
    /// Calibrations of a mission database: 4,096.
    Calibrations,
    /// Containers of a mission database: 4,096.
    Containers,
    /// Rows of all calibrations of a mission database: 65,536.
    CalibrationRows,
    /// Entries of all containers of a mission database: 65,536.
    Entries,
    /// Octets of a script: 65,536.
    ScriptOctets,
    /// Statements of a script: 256.
    Statements,
    /// Parentheses and NOT that are open at a place of a script: 32.
    SqlDepth,
    /// Tables of an archive: 16.
    Tables,
    /// Records of a journal: 4,294,967,295.
    Records,
}

impl Which {
    /// The greatest number that the quantity may have.
    pub fn limit(self) -> u64
        ensures { result ≡ limit_of self }
    {
        match self {
            Which::DumpOctets => 268_435_456,
            Which::Rows => 4_194_304,
            Which::HistoryOctets => 2_147_483_648,
            Which::IntervalRows => 262_144,
            Which::Dumps => 16,
            Which::Fillers => 8,
            Which::Links => 255,
            Which::Asks => 256,
            Which::Files => 99_999_999,
            Which::SheetOctets => 4_194_304,
            Which::Parameters => 4_096,
            Which::Calibrations => 4_096,
            Which::Containers => 4_096,
            Which::CalibrationRows => 65_536,
            Which::Entries => 65_536,
            Which::ScriptOctets => 65_536,
            Which::Statements => 256,
            Which::SqlDepth => 32,
            Which::Tables => 16,
            Which::Records => 4_294_967_295,
        }
    }
}

#[derive(Debug, Drop)]
pub enum Refusal {
    /// The words are no command.
    Usage,
    /// No input has this name.
    Missing {
        name: Octets,
    },
    /// A source failed.
    ReadFault,
    /// The sink failed.
    WriteFault,
    /// The dump has no packet at this octet.
    BadPacket {
        at: u64,
        kind: BadKind,
    },
    /// The first rule that is broken, by the record's number from 1.
    BadSheet {
        sheet: SheetName,
        row: u64,
        rule: u8,
    },
    /// The first rule that is broken, by the octet where it is.
    BadSql {
        at: u64,
        rule: u8,
    },
    /// The disk holds no archive.
    NoArchive,
    /// The disk holds an archive.
    Exists,
    /// The file breaks its format at this octet.
    Damaged {
        file: u32,
        at: u64,
    },
    /// The disk failed.
    DiskFault,
    /// A write failed before, when the disk's count of faults was this, and the archive wasn't opened again since.
    NeedsReopen {
        faults: u64,
    },
    /// The database has no such parameter.
    UnknownParameter,
    /// The range ends before it begins.
    BadRange {
        from: i64,
        to: i64,
    },
    /// The archive has no such table.
    UnknownTable {
        name: Name,
    },
    /// The quantity passes this number.
    Limit {
        which: Which,
        number: u64,
    },
    /// A stored value isn't the one that its packet gives.
    Mismatch {
        interval: Interval,
        parameter: Name,
        key: Key,
        stored: Option<i128>,
        replayed: Option<i128>,
    },
    /// The interval is late in what a reader has.
    Late {
        interval: Interval,
    },
    /// There was no memory.
    OutOfMemory,
}

impl Refusal {
    /// The exit status of the program that ends with it, which is never 0. No command ends with `Late`.
    pub fn status(&self) -> u8
        ensures status { result ≡ status_of self.now }
        ensures some { 0 < result }
    {
        match self {
            Refusal::Usage
            | Refusal::Missing { .. }
            | Refusal::BadSql { .. }
            | Refusal::NoArchive
            | Refusal::Exists
            | Refusal::UnknownParameter
            | Refusal::BadRange { .. }
            | Refusal::UnknownTable { .. }
            | Refusal::Late { .. } => 1,
            Refusal::BadPacket { .. } | Refusal::BadSheet { .. } | Refusal::Limit { .. } => 2,
            Refusal::ReadFault => 3,
            Refusal::WriteFault => 4,
            Refusal::DiskFault | Refusal::NeedsReopen { .. } => 5,
            Refusal::Damaged { .. } | Refusal::Mismatch { .. } => 6,
            Refusal::OutOfMemory => 7,
        }
    }
}

impl From<RowFault> for Refusal {
    ghost use Rattle.std.specs.Prelude.{◌≡◌};
    ghost use Rattle.refusals.specs.Refusal.{refusal_of_rows};

    ghost from_gives = { λ fault refusal. refusal ≡ refusal_of_rows fault };

    fn from(fault: RowFault) -> Refusal {
        match fault {
            RowFault::DiskFault => Refusal::DiskFault,
            RowFault::Damaged { file, at } => Refusal::Damaged { file, at },
            RowFault::OutOfMemory => Refusal::OutOfMemory,
        }
    }
}

impl From<PrintFault> for Refusal {
    ghost use Rattle.std.specs.Prelude.{◌≡◌};
    ghost use Rattle.refusals.specs.Refusal.{refusal_of_print};

    ghost from_gives = { λ fault refusal. refusal ≡ refusal_of_print fault };

    fn from(fault: PrintFault) -> Refusal {
        match fault {
            PrintFault::Write => Refusal::WriteFault,
            PrintFault::DiskFault => Refusal::DiskFault,
            PrintFault::Damaged { file, at } => Refusal::Damaged { file, at },
            PrintFault::OutOfMemory => Refusal::OutOfMemory,
        }
    }
}

impl From<AllocError> for Refusal {
    ghost use Rattle.refusals.specs.declared.refusal.Refusal.TheVariants.{OutOfMemory};

    ghost from_gives = { λ _ refusal. refusal ≡ OutOfMemory };

    fn from(_error: AllocError) -> Refusal {
        Refusal::OutOfMemory
    }
}
