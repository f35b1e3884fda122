//! Pipes, which are read as they are opened.

ghost use Rattle.std.specs.Prelude.{◌≡◌, ◌≤◌, length, IfOk};

use std::alloc::Global;
use std::collections::VecDeque;
use std::io::{self, ErrorKind, Read};

/// The octets of a piece.
const PIECE: usize = 256 * 1024;
/// As many pieces as the longest input fills, a dump of 268,435,456 octets, and one more.
const PIECES: usize = 1_025;

/// One read, made again as long as signals interrupt it.
pub(crate) fn read_some<F: Read>(file: &mut F, into: &mut [u8]) -> io::Result<usize>
    ensures count { IfOk result (λ n. n ≤ length into.old) }
    ensures len { length into.new ≡ length into.old }
{
    for _ in 0..u64::MAX {
        match file.read(into) {
            Ok(n) => return Ok(n),
            Err(error) => {
                if error.kind() != ErrorKind::Interrupted {
                    return Err(error);
                }
            }
        }
    }
    Err(ErrorKind::Interrupted.into())
}

/// What a pipe gave when it was opened: all up to its end, or more than any input may have. A command that waits for who
/// writes to a pipe does so before it locks an archive.
#[derive(Drop)]
pub(crate) struct ReadAhead {
    /// None of them is empty.
    pieces: VecDeque<Vec<u8>>,
    /// The octets of the first piece that were taken.
    taken: usize,
    is_whole: bool,
}

impl ReadAhead {
    pub(crate) fn of<F: Read>(alloc: Global, file: &mut F) -> io::Result<Self> {
        let mut pieces = VecDeque::new(alloc);
        for _ in 0..PIECES {
            let mut piece = Vec::new(alloc);
            piece.resize(PIECE, 0)?;
            let n = fill(file, &mut piece)?;
            let is_last = n < PIECE;
            piece.truncate(n);
            if n > 0 {
                pieces.push_back(piece)?;
            }
            if is_last {
                return Ok(ReadAhead {
                    pieces,
                    taken: 0,
                    is_whole: true,
                });
            }
        }
        Ok(ReadAhead {
            pieces,
            taken: 0,
            is_whole: false,
        })
    }

    /// Whether the pipe has come to its end.
    pub(crate) fn is_whole(&self) -> bool {
        self.is_whole
    }

    /// Takes some of the octets into the front of `into`, and answers how many: none where none is left.
    pub(crate) fn take(&mut self, into: &mut [u8]) -> usize
        ensures { result ≤ length into.old }
    {
        let Some(piece) = self.pieces.front() else {
            return 0;
        };
        let Some(left) = piece.get(self.taken..) else {
            return 0;
        };
        let n = left.len().min(into.len());
        into[..n].copy_from_slice(&left[..n]);
        let is_taken = n == left.len();
        if is_taken {
            self.taken = 0;
            let _empty = self.pieces.pop_front();
        } else {
            self.taken = self.taken.saturating_add(n);
        }
        n
    }
}

/// Fills `into` as far as the file goes, and answers how far.
fn fill<F: Read>(file: &mut F, into: &mut [u8]) -> io::Result<usize>
    ensures { IfOk result (λ n. n ≤ length into.old) }
{
    let mut filled = 0;
    for _ in 0..into.len() {
        if filled == into.len() {
            break;
        }
        let n = read_some(file, &mut into[filled..])?;
        if n == 0 {
            break;
        }
        filled += n;
    }
    Ok(filled)
}
