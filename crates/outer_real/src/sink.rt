//! The standard output.

ghost use Rattle.std.specs.Prelude.{◌≡◌, ◌≤◌, length, IfOk};

use crate::lock::ArchiveLock;
use crate::watch::Watch;
use outer_traits::fault::{Failed, raised};
use outer_traits::sink::Sink;
use std::io::{self, ErrorKind, Write};
use std::rt::Clock as SystemClock;
use std::thread;
use std::time::Duration;

/// How long an output that has no room is left alone, in milliseconds.
const PAUSE: u64 = 10;

/// The standard output. Before it is written to, the archive's lock is given back, and the line that is shown of a load is
/// taken away.
#[derive(Drop)]
pub struct RealSink<'a, R> {
    rt: &'a R,
    lock: &'a ArchiveLock,
    watch: &'a Watch<'a, R>,
    faults: u64,
}

impl<'a, R> RealSink<'a, R> {
    pub fn new(rt: &'a R, lock: &'a ArchiveLock, watch: &'a Watch<'a, R>) -> Self
        ensures { result.faults ≡ 0 }
    {
        RealSink {
            rt,
            lock,
            watch,
            faults: 0,
        }
    }
}

/// One write, made again as long as signals interrupt it, or the output has no room and doesn't wait for some itself.
fn write_some<C: SystemClock, W: Write>(
    clock: &C,
    writer: &mut W,
    piece: &[u8],
) -> io::Result<usize>
    ensures { IfOk result (λ n. n ≤ length piece.now) }
{
    for _ in 0..u64::MAX {
        match writer.write(piece) {
            Ok(n) => return Ok(n),
            Err(error) => match error.kind() {
                ErrorKind::Interrupted => {}
                ErrorKind::WouldBlock => thread::sleep(clock, Duration::from_millis(PAUSE)),
                _ => return Err(error),
            },
        }
    }
    Err(ErrorKind::Interrupted.into())
}

impl<'a, R: Print + Eprint + SystemClock> Sink for RealSink<'a, R> {
    ghost use Rattle.std.specs.Prelude.{None};

    ghost state = { λ sink. record { written = None; faults = sink.faults } };

    fn write(&mut self, piece: &[u8]) -> Result<usize, Failed> {
        self.lock.give_back();
        self.watch.end();
        match write_some(self.rt, &mut io::writer(self.rt), piece) {
            Ok(0) if !piece.is_empty() => {
                self.faults = raised(self.faults);
                Ok(0)
            }
            Ok(n) => Ok(n),
            Err(_) => {
                self.faults = raised(self.faults);
                Err(Failed)
            }
        }
    }
}
