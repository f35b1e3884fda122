//! The pieces of a source, as they are read.

ghost use Rattle.std.specs.Prelude.{◌≡◌, ◌≤◌, length, IfErr, IfOk, IsErrOf};
ghost use Rattle.outer_traits.specs.Outside.{Stays};
ghost use Rattle.outer_traits.specs.Whole.{ReadingCounted};
ghost use Rattle.dump_pieces.specs.Pieces.{IsNoPiece, IsPiece};

use arch_types::octets::Octets;
use outer_traits::source::Source;
use outer_traits::whole::ReadFault;
use std::alloc::Global;

/// Octets that are read at once.
pub const PIECE: usize = 65_536;

/// Reads the next piece of a dump that may have so many octets more, over these: no more than they and the limit let
/// it. A piece without octets is the end.
pub fn read_piece<S: Source>(
    alloc: Global,
    source: &mut S,
    over: &mut [u8],
    room: usize,
) -> Result<Octets, ReadFault>
    requires some { 1 ≤ length over.old }
    ensures piece { IfOk result (IsPiece (S.state source.old).left (S.state source.new).left) }
    ensures within { IfOk result (λ piece. length piece ≤ room) }
    ensures none { IfErr result (IsNoPiece (S.state source.old).left room) }
    ensures kept { IsErrOf result ReadFault.Failed → (S.state source.new).left ≡ (S.state source.old).left }
    ensures stays { length over.new ≡ length over.old }
    ensures counted { ReadingCounted result (S.state source.old).faults (S.state source.new).faults }
    ensures later { (S.state source.old).faults ≤ (S.state source.new).faults }
    ensures reliable { (S.state source.old).never_fails → (S.state source.new).never_fails ×
        Stays (S.state source.old).faults (S.state source.new).faults }
{
    // Without room an octet more is asked for, since only a read tells the end.
    let want = over.len().min(room.max(1));
    let into = &mut over[..want];
    let Ok(n) = source.read(into) else {
        return Err(ReadFault::Failed);
    };
    if n > room {
        return Err(ReadFault::TooLong);
    }
    let (taken, _) = into.split_at(n);
    Ok(Octets::from_slice(alloc, taken)?)
}
