//! What a terminal is told behind the fixed line of a refusal: the forms of the commands, or what to do.

use refusals::{BadKind, Refusal, Which};

/// How the archive's files took the calls of a command.
#[derive(Clone, Copy, Debug, PartialEq, Eq)]
pub enum DiskState {
    Worked,
    /// Another program had them locked.
    Busy,
    Failed,
}

/// Behind a refusal for another cause: that the disk failed, too.
pub const DISK_FAILED_TOO: &str =
    "a call on the archive's files failed, too: look at the medium, then give cudrakh recover";

const FORMS: &str = "\
    cudrakh scan DUMP\n\
    cudrakh values PARAMETERS CALIBRATIONS CONTAINERS DUMP NAME\n\
    cudrakh create PARAMETERS CALIBRATIONS CONTAINERS [SCRIPT]\n\
    cudrakh load [--route FILE] [--ask FILE] [--fillers N] [--link N] DUMP..\n\
    cudrakh query --sql FILE\n\
    cudrakh query --ask FILE\n\
    cudrakh recover\n\
    cudrakh verify\n\
    cudrakh make NUMBER\n\
    YARCH_HOME names the archive's folder; it and all words are UTF-8";

/// What to do about a refusal.
pub fn advice(refusal: &Refusal, disk: DiskState) -> &'static str {
    match refusal {
        Refusal::Usage => FORMS,
        Refusal::Missing { .. } => "no file has this name, seen from the current folder",
        Refusal::ReadFault => "an input is no file, may not be read, or its medium fails",
        Refusal::WriteFault =>
            "the output is closed or full, or nobody reads it; what was made or loaded stays",
        Refusal::BadPacket { kind, .. } => of_packets(*kind),
        Refusal::BadSheet { .. } => "mend that row of the sheet; the manual lists the rules",
        Refusal::BadSql { .. } => "mend the script there; the manual lists the rules",
        Refusal::NoArchive =>
            "YARCH_HOME names another folder than the archive's, or cudrakh create comes first",
        Refusal::Exists => "it is left as it was; for a new one YARCH_HOME names another folder",
        Refusal::Damaged { .. } =>
            "put a copy of the archive's file in its place; this command changed nothing",
        Refusal::DiskFault => of_disk(disk),
        Refusal::NeedsReopen { .. } => "a write failed before: give the command again",
        Refusal::UnknownParameter => "no row of the parameters sheet has this name",
        Refusal::BadRange { .. } => "an ask's time `to` is before its time `from`",
        Refusal::UnknownTable { .. } =>
            "the tables are tm and those of the script that cudrakh create was given",
        Refusal::Limit { which, .. } => of_limit(*which),
        Refusal::Mismatch { .. } =>
            "what is stored of it was changed: put a copy of the archive's file in its place",
        Refusal::Late { .. } => "give cudrakh recover",
        Refusal::OutOfMemory =>
            "the archive and its answers stand in memory: let the program have more of it",
    }
}

fn of_packets(kind: BadKind) -> &'static str {
    match kind {
        BadKind::Version => "what stands there is no packet; those before it were taken",
        BadKind::Truncated => "those before it were taken; give the dump again once it is whole",
    }
}

fn of_disk(disk: DiskState) -> &'static str {
    match disk {
        DiskState::Busy =>
            "another program works on the archive; give the command again when it has ended",
        DiskState::Worked | DiskState::Failed => {
            "look at the archive's medium, its room and permissions, then give the command again"
        }
    }
}

fn of_limit(which: Which) -> &'static str {
    match which {
        Which::DumpOctets =>
            "cut the dump between two packets, and load its parts one after the other",
        Which::Rows | Which::HistoryOctets | Which::Records | Which::Files => {
            "the archive is full, and can be asked; what comes now goes into another one, in a folder of its own"
        }
        Which::IntervalRows =>
            "keep packets of that interval out of tm by a route, or none behind them is loaded",
        Which::Links | Which::Dumps | Which::Fillers => "a smaller number will do",
        Which::Asks | Which::SheetOctets => "give the sheet in parts",
        Which::ScriptOctets | Which::Statements => "give the script in parts",
        Which::SqlDepth => "write the condition with fewer parentheses and NOT",
        Which::Tables => "an archive has tm and 15 tables more",
        Which::Parameters
        | Which::Calibrations
        | Which::Containers
        | Which::CalibrationRows
        | Which::Entries => "the database is too large; two archives may share the parameters",
    }
}
