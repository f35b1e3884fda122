//! Sources that are read to their end.

ghost use Rattle.std.specs.Prelude.{◌≡◌, ◌+◌, ◌^◌, ◌≤◌, ◌<◌, length, IfOk, IfErr, IsErrOf, IfSome, vec_len};
ghost use Rattle.outer_traits.specs.Outside.{Stays};
ghost use Rattle.outer_traits.specs.Whole.{IsInput, IsInputFault, ReadingCounted, ReadingGiven, TookAtMost};

use crate::fault::OpenFault;
use crate::inputs::Inputs;
use crate::source::Source;
use std::alloc::{AllocError, Global};

/// Octets that are read at once.
const PIECE: usize = 65_536;

/// Why an input wasn't read to its end.
#[derive(Clone, Copy, Debug, PartialEq, Eq)]
pub enum ReadFault {
    /// There's no input of this name.
    Missing,
    /// A call failed.
    Failed,
    /// It has more octets than the limit.
    TooLong,
    OutOfMemory,
}

impl From<AllocError> for ReadFault {
    ghost use Rattle.outer_traits.specs.declared.whole.ReadFault.TheVariants.{OutOfMemory};

    ghost from_gives = { λ _ fault. fault ≡ OutOfMemory };

    fn from(_error: AllocError) -> ReadFault {
        ReadFault::OutOfMemory
    }
}

/// All octets that the named input has, of which there may be `limit`. The input is opened once, and its source is closed whatever comes.
/// The count of faults rises exactly where the answer is `Failed`.
pub fn read_input<I: Inputs>(
    alloc: Global,
    inputs: &mut I,
    name: &str,
    limit: usize,
) -> Result<Vec<u8>, ReadFault>
    ensures whole { IfOk result (λ octets. IsInput (I.state inputs.old).files name.now octets.items) }
    ensures short { IfOk result (λ octets. vec_len octets ≤ limit) }
    ensures fault { IfErr result (IsInputFault (I.state inputs.old).files name.now limit (I.state inputs.old).faults
        (I.state inputs.new).faults) }
    ensures same { (I.state inputs.new).files ≡ (I.state inputs.old).files }
    ensures closed { (I.state inputs.old).open_sources + 1 < 2 ^ 64 →
        (I.state inputs.new).open_sources ≡ (I.state inputs.old).open_sources }
    ensures gave { ReadingGiven result (I.state inputs.old).given (I.state inputs.new).given }
    ensures counted { ReadingCounted result (I.state inputs.old).faults (I.state inputs.new).faults }
    ensures later { (I.state inputs.old).faults ≤ (I.state inputs.new).faults }
    ensures reliable { (I.state inputs.old).never_fails → (I.state inputs.new).never_fails ×
        Stays (I.state inputs.old).faults (I.state inputs.new).faults }
{
    match inputs.open(alloc, name) {
        Ok(opened) => {
            let mut source = opened;
            let octets = read_whole(alloc, &mut source, limit);
            inputs.close(source);
            octets
        }
        Err(OpenFault::Missing) => Err(ReadFault::Missing),
        Err(OpenFault::Failed) => Err(ReadFault::Failed),
        Err(OpenFault::OutOfMemory) => Err(ReadFault::OutOfMemory),
    }
}

/// All octets that a source has left, of which there may be `limit`. The count of faults rises exactly where the answer is `Failed`, and no read
/// is made once the limit was passed.
pub fn read_whole<S: Source>(
    alloc: Global,
    source: &mut S,
    limit: usize,
) -> Result<Vec<u8>, ReadFault>
    ensures whole { IfOk result (λ octets. IfSome (S.state source.old).left (λ left. left ≡ octets.items)) }
    ensures short { IfOk result (λ octets. vec_len octets ≤ limit) }
    ensures long { IsErrOf result ReadFault.TooLong → IfSome (S.state source.old).left (λ left. limit < length left) }
    ensures within { IsErrOf result ReadFault.Failed →
        TookAtMost limit (S.state source.old).left (S.state source.new).left }
    ensures counted { ReadingCounted result (S.state source.old).faults (S.state source.new).faults }
    ensures not_missing { IsErrOf result ReadFault.Missing → ⊥ }
    ensures later { (S.state source.old).faults ≤ (S.state source.new).faults }
    ensures reliable { (S.state source.old).never_fails → (S.state source.new).never_fails ×
        Stays (S.state source.old).faults (S.state source.new).faults }
{
    let mut octets = Vec::new(alloc);
    let mut piece = zeros(alloc, PIECE)?;
    loop {
        let into = piece.as_mut_slice();
        let Ok(n) = source.read(into) else {
            return Err(ReadFault::Failed);
        };
        if n == 0 {
            return Ok(octets);
        }
        if n > limit - octets.len() {
            return Err(ReadFault::TooLong);
        }
        let (taken, _) = into.split_at(n);
        octets.extend_from_slice(taken)?;
    }
}

/// Zeros to read over.
fn zeros(alloc: Global, n: usize) -> Result<Vec<u8>, AllocError>
    ensures { IfOk result (λ piece. vec_len piece ≡ n) }
{
    Vec::from_elem(alloc, 0, n)
}
