//! Slices of a block that stand before an end of it.

ghost use Rattle.std.specs.Prelude.{◌≡◌, ◌++◌, IfOk};
ghost use Rattle.row_codec.specs.Block.{IsEndOf};

use arch_types::octets::Octets;
use std::alloc::AllocError;

/// The octets of a block that stand before these last ones, as a slice of it.
pub fn part_before(block: &Octets, octets: &[u8], rest: &[u8]) -> Result<Octets, AllocError>
    requires { IsEndOf (octets.now ++ rest.now) block.now }
    ensures { IfOk result (λ part. part ≡ octets.now) }
{
    let end = block.len() - rest.len();
    block.slice(end - octets.len(), end)
}
