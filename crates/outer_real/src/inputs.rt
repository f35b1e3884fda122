//! Files as inputs.

ghost use Rattle.std.specs.Prelude.{◌≡◌, ◌≤◌, length, IfOk};

use crate::pipes::{ReadAhead, read_some};
use outer_traits::fault::{Failed, OpenFault, raised};
use outer_traits::inputs::Inputs;
use outer_traits::source::Source;
use std::alloc::Global;
use std::fs::{self, OpenFile};
use std::io::{self, ErrorKind, Read};
use std::os::unix::fs::FileTypeExt;
use std::rt::Files;

/// An open file. A pipe was read as it was opened, so that nothing that is opened behind it waits for who writes to it.
#[derive(Drop)]
pub struct RealSource<F> {
    file: F,
    ahead: Option<ReadAhead>,
    faults: u64,
}

impl<F: Read> Source for RealSource<F> {
    ghost use Rattle.std.specs.Prelude.{None};

    ghost state = { λ source. record { left = None; faults = source.faults; never_fails = ⊥ } };

    fn read(&mut self, into: &mut [u8]) -> Result<usize, Failed> {
        if let Some(ahead) = &mut self.ahead {
            let n = ahead.take(into);
            if n > 0 || ahead.is_whole() {
                return Ok(n);
            }
        }
        match read_some(&mut self.file, into) {
            Ok(n) => Ok(n),
            Err(_) => {
                self.faults = raised(self.faults);
                Err(Failed)
            }
        }
    }
}

/// Files by their paths.
#[derive(Drop)]
pub struct RealInputs<'a, R> {
    rt: &'a R,
    /// Sources that are open, up to the last value of the type.
    held: u64,
    /// Sources that were given, up to the last value of the type.
    given: u64,
    faults: u64,
}

impl<'a, R> RealInputs<'a, R> {
    pub fn new(rt: &'a R) -> Self
        ensures { (result.held ≡ 0) × (result.given ≡ 0) × (result.faults ≡ 0) }
    {
        RealInputs {
            rt,
            held: 0,
            given: 0,
            faults: 0,
        }
    }
}

/// A file of this path at its start.
fn source_of<R: Files>(rt: &R, alloc: Global, name: &str) -> io::Result<RealSource<R::File>>
    ensures { IfOk result (λ source. source.faults ≡ 0) }
{
    let mut file = fs::open(rt, name)?;
    let ahead = if file.metadata()?.file_type().is_fifo() {
        Some(ReadAhead::of(alloc, &mut file)?)
    } else {
        None
    };
    Ok(RealSource {
        file,
        ahead,
        faults: 0,
    })
}

impl<'a, R: Files> Inputs for RealInputs<'a, R> {
    ghost use Rattle.std.specs.Prelude.{None};

    type Source = RealSource<R::File>;

    ghost state = { λ inputs. record {
      files = None;
      open_sources = inputs.held;
      given = inputs.given;
      faults = inputs.faults;
      never_fails = ⊥;
    } };

    /// `Missing` where there's no file of this path, a part of which may be a file in a folder's place.
    fn open(&mut self, alloc: Global, name: &str) -> Result<RealSource<R::File>, OpenFault> {
        match source_of(self.rt, alloc, name) {
            Ok(source) => {
                self.held = self.held.saturating_add(1);
                self.given = self.given.saturating_add(1);
                Ok(source)
            }
            Err(error) => match error.kind() {
                ErrorKind::NotFound | ErrorKind::NotADirectory => Err(OpenFault::Missing),
                ErrorKind::OutOfMemory => Err(OpenFault::OutOfMemory),
                _ => {
                    self.faults = raised(self.faults);
                    Err(OpenFault::Failed)
                }
            },
        }
    }

    fn close(&mut self, source: RealSource<R::File>) {
        self.held = self.held.saturating_sub(1);
        if source.faults > 0 {
            self.faults = raised(self.faults);
        }
    }
}
