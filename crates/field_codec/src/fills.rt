//! Fills as octets, both ways.

ghost use Rattle.std.specs.Prelude.{◌≡◌, ◌+◌, ◌<◌, ◌^◌, ◌++◌, length, IfOk, OnOk};
ghost use Rattle.std.specs.Int.{w8};
ghost use Rattle.octet_fields.specs.declared.fault.DecodeError.TheVariants.{OutOfMemory};
ghost use Rattle.octet_fields.specs.Answers.{Gives, ReadsEach, ReadsOnly};
ghost use Rattle.octet_fields.specs.Reading.{whole};
ghost use Rattle.octet_fields.specs.Spelling.{number};
ghost use Rattle.row_codec.specs.Block.{IsEndOf};
ghost use Rattle.field_codec.specs.Entries.{IsFill};
ghost use Rattle.field_codec.specs.Spelling.{fill_fields, fill_octets, fill_fields_octets};
ghost use Rattle.field_codec.specs.Reading.{fill_at};

use arch_types::octets::Octets;
use intervals::Interval;
use octet_fields::{DecodeError, i64_at, put_i64, put_u8, put_u64, u64_at};
use row_codec::part_before;
use std::alloc::{AllocError, Global};

/// The octets of a fill before its set, its kind with them.
const FIELDS_SIZE: usize = 17;

/// The fill that an end of a block is. Its set is a slice of the block.
#[tactic(auto, unfolding(crate::specs::Reading::fill_at))]
fn whole_fill(block: &Octets, octets: &[u8]) -> Result<(Interval, u64, Octets), DecodeError>
    requires { IsEndOf octets.now block.now }
    ensures { Gives (λ x. fill_fields x.0 x.1 x.2) result (whole fill_at octets.now) }
{
    let (interval, rest) = i64_at(octets)?;
    let (base, set) = u64_at(rest)?;
    let set = part_before(block, set, &[])?;
    Ok((Interval(interval), base, set))
}

/// The fill that an end of a block spells. Its set is a slice of the block.
pub(crate) fn read_fill(
    block: &Octets,
    octets: &[u8],
) -> Result<(Interval, u64, Octets), DecodeError>
    requires { IsEndOf octets.now block.now }
    ensures spelled { ReadsOnly IsFill fill_fields_octets (λ x. fill_fields x.0 x.1 x.2) octets.now result }
    ensures each { ReadsEach IsFill fill_fields_octets (λ x. fill_fields x.0 x.1 x.2) (λ e. e ≡ OutOfMemory) octets.now result }
{
    whole_fill(block, octets)
}

/// How many octets an entry of a fill has.
pub fn fill_entry_len(set: &[u8]) -> usize
    requires { 17 + length set.now < 2 ^ 64 }
    ensures { result ≡ 17 + length set.now }
{
    FIELDS_SIZE + set.len()
}

/// Adds the octets of an entry of a fill to a buffer.
pub fn put_fill(
    out: &mut Vec<u8>,
    interval: Interval,
    base: u64,
    set: &[u8],
) -> Result<(), AllocError>
    ensures { OnOk result (out.new.items ≡ out.old.items ++ (number w8 3 ++ fill_octets interval base set.now)) }
{
    put_u8(out, 3)?;
    put_i64(out, interval.0)?;
    put_u64(out, base)?;
    out.extend_from_slice(set)
}

/// The octets of an entry of a fill.
pub(crate) fn write_fill(
    alloc: Global,
    interval: Interval,
    base: u64,
    set: &[u8],
) -> Result<Vec<u8>, AllocError>
    ensures { IfOk result (λ out. out.items ≡ number w8 3 ++ fill_octets interval base set.now) }
{
    let mut out = Vec::with_capacity(alloc, set.len().saturating_add(FIELDS_SIZE))?;
    put_fill(&mut out, interval, base, set)?;
    Ok(out)
}
