//! Fields at the front of a slice. Each call answers the field and the octets after it, or `Short`
//! where the octets end before the field does, and takes no memory.

ghost use Rattle.std.specs.Prelude.{◌≡◌, ◌<◌, ◌/◌, length, min};
ghost use Rattle.std.specs.Int.{w8, w16, w32, w64, w128};
ghost use Rattle.octet_fields.specs.Answers.{Answers};
ghost use Rattle.octet_fields.specs.Reading.{name_at, number_at, octets_at, signed_at};

use crate::fault::Short;

/// That many octets, as they stand.
#[tactic(auto, unfolding(crate::specs::Reading::octets_at))]
pub fn octets_at(octets: &[u8], count: usize) -> Result<(&[u8], &[u8]), Short>
    ensures { Answers (λ x. (x.0.now, x.1.now)) result (octets_at count octets.now) }
{
    if octets.len() < count {
        return Err(Short);
    }
    Ok(octets.split_at(count))
}

#[tactic(auto, unfolding(crate::specs::Reading::number_at))]
pub fn u8_at(octets: &[u8]) -> Result<(u8, &[u8]), Short>
    ensures { Answers (λ x. (x.0, x.1.now)) result (number_at w8 octets.now) }
{
    if octets.is_empty() {
        return Err(Short);
    }
    let (front, rest) = octets.split_at(1);
    Ok((front[0], rest))
}

#[tactic(auto, unfolding(crate::specs::Reading::number_at))]
pub fn u16_at(octets: &[u8]) -> Result<(u16, &[u8]), Short>
    ensures { Answers (λ x. (x.0, x.1.now)) result (number_at w16 octets.now) }
{
    if octets.len() < 2 {
        return Err(Short);
    }
    let (front, rest) = octets.split_at(2);
    Ok((u16::from_be_bytes([front[0], front[1]]), rest))
}

#[tactic(auto, unfolding(crate::specs::Reading::number_at))]
pub fn u32_at(octets: &[u8]) -> Result<(u32, &[u8]), Short>
    ensures { Answers (λ x. (x.0, x.1.now)) result (number_at w32 octets.now) }
{
    if octets.len() < 4 {
        return Err(Short);
    }
    let (front, rest) = octets.split_at(4);
    Ok((
        u32::from_be_bytes([front[0], front[1], front[2], front[3]]),
        rest,
    ))
}

#[tactic(auto, unfolding(crate::specs::Reading::number_at))]
pub fn u64_at(octets: &[u8]) -> Result<(u64, &[u8]), Short>
    ensures { Answers (λ x. (x.0, x.1.now)) result (number_at w64 octets.now) }
{
    if octets.len() < 8 {
        return Err(Short);
    }
    let (front, rest) = octets.split_at(8);
    let number = u64::from_be_bytes([
        front[0], front[1], front[2], front[3], front[4], front[5], front[6], front[7],
    ]);
    Ok((number, rest))
}

#[tactic(auto, unfolding(crate::specs::Reading::number_at))]
fn u128_at(octets: &[u8]) -> Result<(u128, &[u8]), Short>
    ensures { Answers (λ x. (x.0, x.1.now)) result (number_at w128 octets.now) }
{
    if octets.len() < 16 {
        return Err(Short);
    }
    let (front, rest) = octets.split_at(16);
    let number = u128::from_be_bytes([
        front[0], front[1], front[2], front[3], front[4], front[5], front[6], front[7], front[8],
        front[9], front[10], front[11], front[12], front[13], front[14], front[15],
    ]);
    Ok((number, rest))
}

#[tactic(auto, unfolding(crate::specs::Reading::signed_at))]
pub fn i64_at(octets: &[u8]) -> Result<(i64, &[u8]), Short>
    ensures { Answers (λ x. (x.0, x.1.now)) result (signed_at w64 octets.now) }
{
    let (bits, rest) = u64_at(octets)?;
    Ok((bits.cast_signed(), rest))
}

#[tactic(auto, unfolding(crate::specs::Reading::signed_at))]
pub fn i128_at(octets: &[u8]) -> Result<(i128, &[u8]), Short>
    ensures { Answers (λ x. (x.0, x.1.now)) result (signed_at w128 octets.now) }
{
    let (bits, rest) = u128_at(octets)?;
    Ok((bits.cast_signed(), rest))
}

/// A name: its length, one octet, and that many octets. What may stand in it is the caller's to test.
#[tactic(auto, unfolding(crate::specs::Reading::name_at))]
pub fn name_at(octets: &[u8]) -> Result<(&[u8], &[u8]), Short>
    ensures { Answers (λ x. (x.0.now, x.1.now)) result (name_at octets.now) }
{
    let (length, rest) = u8_at(octets)?;
    octets_at(rest, usize::from(length))
}

/// The room to make for `count` values of at least `least` octets each: no more than the octets can spell.
pub fn room_for(count: usize, octets: &[u8], least: usize) -> usize
    requires { 0 < least }
    ensures { result ≡ min count (length octets.now / least) }
{
    count.min(octets.len() / least)
}
