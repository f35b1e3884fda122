//! Writes numbers of one width, one after the other, without gaps. 64 bits go out at once.

ghost use Rattle.std.specs.Prelude.{◌≡◌, ◌+◌, ◌*◌, ◌^◌, ◌<◌, ◌≤◌, length, OnOk, IfOk};
ghost use Rattle.std.specs.List.{AllByRecursion};
ghost use Rattle.octet_fields.specs.Exact.{IsOctets};
ghost use Rattle.segment_codec.specs.Bits.{octet_count, packed};
ghost use Rattle.segment_codec.specs.Pending.{HasFinished, HasWritten, IsLongerBy, IsPending};
ghost use Rattle.segment_codec.specs.RawColumn.{offsets_from};

use std::alloc::{AllocError, Global};

/// Bits between two octets: the last that were written, fewer than 64, or the next to be read.
#[derive(Clone, Copy, Debug)]
pub(crate) struct Pending {
    pub(crate) bits: u128,
    /// How many bits.
    pub(crate) count: u32,
}

/// Fewer than 64 bits with a number behind them, where they have room for it in a word.
#[tactic(auto, using(crate::proofs::Numbers::small_bits, crate::proofs::Numbers::sum_in_word))]
fn joined_word(pending: Pending, width: u32, number: u64) -> u64
    requires pending { IsPending pending }
    requires room { pending.count + width < 64 }
    requires number { number < 2 ^ width }
    ensures { result ≡ pending.bits * 2 ^ width + number }
{
    let bits = pending.bits as u64;
    (bits << width) + number
}

/// Writes a number of up to 64 bits, with which there are 64 or more.
fn put_full(
    out: &mut Vec<u8>,
    pending: Pending,
    width: u32,
    number: u64,
) -> Result<Pending, AllocError>
    requires pending { IsPending pending }
    requires width { width ≤ 64 }
    requires number { number < 2 ^ width }
    requires full { 64 ≤ pending.count + width }
    ensures pending { IfOk result (λ after. IsPending after) }
    ensures len { IfOk result (λ after. IsLongerBy width out.old.items pending out.new.items after) }
    ensures written { IfOk result (λ after. HasWritten width number out.old.items pending out.new.items after) }
{
    let bits = (pending.bits << width) + u128::from(number);
    let spare = pending.count + width - 64;
    let high = bits >> spare;
    out.extend_from_slice(&(high as u64).to_be_bytes())?;
    Ok(Pending {
        bits: bits - (high << spare),
        count: spare,
    })
}

/// Writes a number of up to 64 bits.
fn put(out: &mut Vec<u8>, pending: Pending, width: u32, number: u64) -> Result<Pending, AllocError>
    requires pending { IsPending pending }
    requires width { width ≤ 64 }
    requires number { number < 2 ^ width }
    ensures pending { IfOk result (λ after. IsPending after) }
    ensures len { IfOk result (λ after. IsLongerBy width out.old.items pending out.new.items after) }
    ensures written { IfOk result (λ after. HasWritten width number out.old.items pending out.new.items after) }
{
    let count = pending.count + width;
    if count < 64 {
        // most numbers only join the bits, which takes a word
        let bits = u128::from(joined_word(pending, width, number));
        return Ok(Pending { bits, count });
    }
    put_full(out, pending, width, number)
}

/// Writes a number of up to 128 bits.
fn put_wide(
    out: &mut Vec<u8>,
    pending: Pending,
    width: u32,
    number: u128,
) -> Result<Pending, AllocError>
    requires pending { IsPending pending }
    requires width { width ≤ 128 }
    requires number { number < 2 ^ width }
    ensures pending { IfOk result (λ after. IsPending after) }
    ensures len { IfOk result (λ after. IsLongerBy width out.old.items pending out.new.items after) }
    ensures written { IfOk result (λ after. HasWritten width number out.old.items pending out.new.items after) }
{
    if width <= 64 {
        return put(out, pending, width, number as u64);
    }
    let high = number / 0x1_0000_0000_0000_0000;
    let low = number % 0x1_0000_0000_0000_0000;
    let middle = put(out, pending, width - 64, high as u64)?;
    put(out, middle, 64, low as u64)
}

/// Writes the last bits, and zero bits that fill their octet.
fn finish(out: &mut Vec<u8>, pending: Pending) -> Result<(), AllocError>
    requires { IsPending pending }
    ensures len { OnOk result (length out.new.items ≡ length out.old.items + octet_count pending.count) }
    ensures octets { OnOk result (IsOctets out.new.items) }
    ensures written { OnOk result (HasFinished out.old.items pending out.new.items) }
{
    let word = pending.bits << (64 - pending.count);
    let octets = (word as u64).to_be_bytes();
    let octet_len = ((pending.count + 7) / 8) as usize;
    let (front, _) = octets.as_slice().split_at(octet_len);
    out.extend_from_slice(front)?;
    Ok(())
}

/// The octets of how far values lie above the least of them, so many bits each.
pub(crate) fn pack(
    alloc: Global,
    low: i128,
    width: u32,
    values: &[i128],
) -> Result<Vec<u8>, AllocError>
    requires width { width ≤ 128 }
    requires offsets { AllByRecursion (λ d. d < 2 ^ width) (offsets_from low values.now) }
    ensures { IfOk result (λ v. v.items ≡ packed width (offsets_from low values.now)) }
{
    // room for all the octets, so that no number asks for more
    let room = values.len().saturating_mul(width as usize) / 8 + 1;
    let mut out = Vec::with_capacity(alloc, room)?;
    let mut pending = Pending { bits: 0, count: 0 };
    for value in values {
        pending = put_wide(&mut out, pending, width, value.abs_diff(low))?;
    }
    finish(&mut out, pending)?;
    Ok(out)
}
