//! Passing over varints that stand one after the other.

ghost use Rattle.std.specs.Prelude.{◌≡◌, ◌≤◌, ℕ, suc, List, length, Some, IfOk, nat_lt};
ghost use Rattle.std.specs.List.{position};
ghost use Rattle.segment_codec.specs.VarintEnds.{behind_ends, ends_in};

use octet_fields::Short;

/// How many octets are looked at together.
const PIECE: usize = 16;

/// How many of so few octets end a varint: counted in an octet, so that many are compared at once.
fn ends_in(octets: &[u8]) -> u8
    requires { length octets.now ≤ 255 }
    ensures count { result ≡ ends_in octets.now }
    ensures within { result ≤ length octets.now }
{
    let mut ends = 0u8;
    for octet in octets {
        ends += u8::from(*octet < 128);
    }
    ends
}

/// Passes over pieces that end fewer varints than are left, of so many that stand at the front: how many are left then,
/// and where.
fn passed_pieces(count: u16, octets: &[u8]) -> (u16, &[u8])
    ensures { behind_ends result.1.now result.0 ≡ behind_ends octets.now count }
{
    let mut left = count;
    let mut rest = octets;
    while usize::from(left) > PIECE && rest.len() >= PIECE {
        let (piece, behind) = rest.split_at(PIECE);
        left -= u16::from(ends_in(piece));
        rest = behind;
    }
    (left, rest)
}

/// The place of the octet that ends the varint at the front.
fn last_octet(octets: &[u8]) -> Option<usize>
    ensures { result ≡ position (λ octet. nat_lt octet 128) octets.now }
{
    octets.iter().position(|octet| *octet < 128)
}

/// The octets after the varint at the front, or after what is left of one.
fn varint_end(octets: &[u8]) -> Result<&[u8], Short>
    ensures { (n : ℕ) (after : List ℕ) → behind_ends octets.now (suc n) ≡ Some after →
        IfOk result (λ rest. behind_ends rest.now n ≡ Some after) }
{
    let Some(last) = last_octet(octets) else {
        return Err(Short);
    };
    let (_, rest) = octets.split_at(last + 1);
    Ok(rest)
}

/// The octets after so many varints that stand at the front, whose numbers aren't asked for.
pub(crate) fn varints_end(count: u16, octets: &[u8]) -> Result<&[u8], Short>
    ensures { (after : List ℕ) → behind_ends octets.now count ≡ Some after → IfOk result (λ rest. rest.now ≡ after) }
{
    let (left, behind) = passed_pieces(count, octets);
    let mut rest = behind;
    for _ in 0..left {
        rest = varint_end(rest)?;
    }
    Ok(rest)
}
