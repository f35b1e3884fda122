//! The program of the archive: it makes the objects of the edge to the system, runs the command of its words, and says on standard
//! error why that was refused.
//!
//! `main` holds the standard streams and makes the objects of the edge to the system (`outer_real`), which tell no contents. The disk is the
//! folder that the environment's `YARCH_HOME` names, or else `yarch`; that it isn't there is met by the first call that wants it.
#![tactic(auto)]

mod advice;
mod printed;

use crate::advice::{DISK_FAILED_TOO, DiskState, advice};
use crate::printed::PrintedFault;
use arch_disk::Disk;
use archive_cli::Ended;
use archive_cli::run::run;
use load_progress::{WatchedJobs, watched_jobs};
use outer_real::{
    ArchiveLock, RealClock, RealDisk, RealInputs, RealSink, StandardStreams, Watch,
    keep_freed_memory,
};
use refusals::Refusal;
use std::env::{self, VarError};
use std::io::{ErrorKind, IsTerminal};
use std::process::ExitCode;
use std::sync::Wait;
use std::thread::Threads;

fn main(rt: HostRuntime) -> ExitCode {
    let Ok(streams) = StandardStreams::hold(&rt) else {
        return refused(&rt, &Refusal::ReadFault);
    };
    keep_freed_memory(rt.alloc());
    let status = run_command(&rt, &rt);
    // only now, when all is printed
    drop(streams);
    status
}

/// Runs the command of the words, and says on standard error why it was refused. The archive's files are closed by then. A load starts threads, and may wait.
fn run_command<R: Threads + Wait + Sync>(rt: &HostRuntime, threads: &R) -> ExitCode {
    let words = match words_of(rt) {
        Ok(words) => words,
        Err(refusal) => return refused(rt, &refusal),
    };
    let folder = match folder_of(rt) {
        Ok(folder) => folder,
        Err(refusal) => return refused(rt, &refusal),
    };
    let lock = ArchiveLock::new();
    let watch = Watch::new(rt, load_watched(rt, words.as_slice()));
    let Ended {
        status,
        disk,
        report,
    } = run(
        threads,
        rt.alloc(),
        words.as_slice(),
        RealDisk::new(rt.alloc(), rt, folder, Some(&lock)),
        &mut RealInputs::new(rt),
        &mut RealSink::new(rt, &lock, &watch),
        &mut RealClock::new(rt),
        &watch,
    );
    let disk_state = if disk.is_busy() {
        DiskState::Busy
    } else if disk.faults() > 0 {
        DiskState::Failed
    } else {
        DiskState::Worked
    };
    drop(disk);
    lock.give_back();
    watch.end();
    if let Some(refusal) = &report.refusal {
        say(rt, refusal, report.link, disk_state);
    }
    ExitCode::from(status)
}

/// The jobs of a load that somebody watches, where standard error is a terminal.
fn load_watched(rt: &HostRuntime, words: &[String]) -> Option<WatchedJobs> {
    if !rt.stderr().is_terminal() {
        return None;
    }
    let jobs = watched_jobs(rt.alloc(), words).ok()?;
    (jobs.links > 0).then_some(jobs)
}

/// Says on standard error why a command was refused; on a terminal behind that of which dump, if of one, and what to do.
fn say(rt: &HostRuntime, refusal: &Refusal, link: Option<u16>, disk: DiskState) {
    let _ = eprintln!(rt; "{}", PrintedFault(refusal));
    if !rt.stderr().is_terminal() {
        return;
    }
    if let Some(link) = link {
        let _ = eprintln!(rt;
            "it is the dump of link {link}; links are counted from --link on, or from 1"
        );
    }
    let _ = eprintln!(rt; "{}", advice(refusal, disk));
    if disk == DiskState::Failed && !matches!(refusal, Refusal::DiskFault) {
        let _ = eprintln!(rt; "{DISK_FAILED_TOO}");
    }
}

/// Says on standard error why nothing was begun, and gives the status of that.
fn refused(rt: &HostRuntime, refusal: &Refusal) -> ExitCode {
    say(rt, refusal, None, DiskState::Worked);
    ExitCode::from(refusal.status())
}

/// The folder of the archive: the one that `YARCH_HOME` names, or else `yarch`, also where it names nothing.
fn folder_of(rt: &HostRuntime) -> Result<String, Refusal> {
    match env::var(rt, "YARCH_HOME") {
        Ok(path) if !path.is_empty() => Ok(path),
        Ok(_) | Err(VarError::NotPresent) => match String::from_str(rt.alloc(), "yarch") {
            Ok(path) => Ok(path),
            Err(_) => Err(Refusal::OutOfMemory),
        },
        Err(VarError::NotUnicode) => Err(Refusal::Usage),
        Err(VarError::OutOfMemory) => Err(Refusal::OutOfMemory),
    }
}

/// The words behind the program's name. Words that can't be read, or are no text, are no command.
fn words_of(rt: &HostRuntime) -> Result<Vec<String>, Refusal> {
    let mut args = match env::args(rt) {
        Ok(args) => args,
        Err(error) if error.kind() == ErrorKind::OutOfMemory => return Err(Refusal::OutOfMemory),
        Err(_) => return Err(Refusal::Usage),
    };
    let _program = args.next();
    let mut words = Vec::new(rt.alloc());
    for word in args {
        if words.push(word).is_err() {
            return Err(Refusal::OutOfMemory);
        }
    }
    Ok(words)
}
