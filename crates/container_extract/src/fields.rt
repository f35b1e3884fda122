//! Bit fields.

ghost use Rattle.std.specs.Prelude.{◌≡◌, ◌+◌, ◌*◌, ◌^◌, ◌<◌, ◌≤◌, drop, length, take, true, IfSome, Some};
ghost use Rattle.mdb_items.specs.ParameterRows.{fits_coding};
ghost use Rattle.container_extract.specs.Bits.{raw_bits_at, field_at, big_endian_number, reversed, twos_complement};

use mdb_model::Coding;

/// Eight octets at most as one number, the first octet the highest.
fn number_of(octets: &[u8]) -> u64
    requires { length octets.now ≤ 8 }
    ensures { result ≡ big_endian_number octets.now }
{
    let mut number: u64 = 0;
    for octet in octets {
        number = number * 256 + *octet as u64;
    }
    number
}

/// Octets as one number, the first octet the highest.
fn wide_number_of(octets: &[u8]) -> u128
    requires { length octets.now ≤ 16 }
    ensures { result ≡ big_endian_number octets.now }
{
    let mut number: u128 = 0;
    for octet in octets {
        number = number * 256 + *octet as u128;
    }
    number
}

/// Eight octets of a packet as one number, from a place on.
fn eight_octets(packet: &[u8], start: usize) -> u64
    requires { start + 8 ≤ length packet.now }
    ensures { result ≡ big_endian_number (take 8 (drop start packet.now)) }
{
    let (_, behind) = packet.split_at(start);
    let (front, _) = behind.split_at(8);
    u64::from_be_bytes([
        front[0], front[1], front[2], front[3], front[4], front[5], front[6], front[7],
    ])
}

/// Where eight octets of a packet begin, from an octet on, or earlier where the packet ends before.
fn word_start(len: usize, first: usize) -> usize
    requires { 8 ≤ len }
    ensures inside { result + 8 ≤ len }
    ensures before { result ≤ first }
{
    if first <= len - 8 {
        return first;
    }
    len - 8
}

/// The field of so many bits at a bit of a packet, where eight of its octets hold it: they're read and shifted as one
/// word.
fn word_field(packet: &[u8], at: u32, width: u8) -> Option<u64>
    requires width { (1 ≤ width) × (width ≤ 64) }
    requires inside { at + width ≤ 8 * length packet.now }
    ensures value { IfSome result (λ field. field ≡ field_at packet.now at width) }
    ensures bound { IfSome result (λ field. field < 2 ^ width) }
{
    if packet.len() < 8 {
        return None;
    }
    let start = word_start(packet.len(), at as usize / 8);
    let ahead = at as usize - 8 * start + width as usize;
    if ahead > 64 {
        return None;
    }
    let word = eight_octets(packet, start);
    let mask = u64::MAX >> (64 - width);
    Some((word >> (64 - ahead)) & mask)
}

/// The field of so many bits at a bit of a packet: of the octets that it touches, nine at most, the bits after it are shifted out and
/// those before it are cleared.
#[inline(never)]
fn long_field(packet: &[u8], at: u32, width: u8) -> u64
    requires width { (1 ≤ width) × (width ≤ 64) }
    requires inside { at + width ≤ 8 * length packet.now }
    ensures value { result ≡ field_at packet.now at width }
    ensures bound { result < 2 ^ width }
{
    let first = at as usize;
    let last = first + width as usize;
    let end = (last + 7) / 8;
    let octets = &packet[first / 8..end];
    let after = 8 * end - last;
    let mask = (1u128 << width) - 1;
    // A number of 64 bits is made and shifted in half the time of a wide one.
    let shifted = if octets.len() <= 8 {
        (number_of(octets) >> after) as u128
    } else {
        wide_number_of(octets) >> after
    };
    (shifted & mask) as u64
}

/// The field of so many bits at a bit of a packet.
fn field(packet: &[u8], at: u32, width: u8) -> u64
    requires width { (1 ≤ width) × (width ≤ 64) }
    requires inside { at + width ≤ 8 * length packet.now }
    ensures value { result ≡ field_at packet.now at width }
    ensures bound { result < 2 ^ width }
{
    match word_field(packet, at, width) {
        Some(field) => field,
        None => long_field(packet, at, width),
    }
}

/// A number of so many octets with its octets in the reverse order.
#[inline(never)]
fn reversed(octets: u8, number: u64) -> u64
    requires { octets ≤ 8 }
    ensures value { result ≡ reversed octets number }
    ensures bound { result < 256 ^ octets }
{
    let mut rest = number;
    let mut swapped: u64 = 0;
    for _ in 0..octets {
        swapped = swapped * 256 + rest % 256;
        rest /= 256;
    }
    swapped
}

/// The two's complement of so many bits.
fn twos_complement(width: u8, number: u64) -> i128
    requires width { (1 ≤ width) × (width ≤ 64) }
    ensures { result ≡ twos_complement width number }
{
    if (number as u128) < 1u128 << (width - 1) {
        number as i128
    } else {
        number as i128 - (1i128 << width)
    }
}

/// The raw number of the field of so many bits at a bit of a packet, counted from the packet's first bit. The width is 1 to 64, for a
/// coding whose lowest octet comes first a multiple of 8, and the field lies inside the packet.
pub fn bits(packet: &[u8], at: u32, width: u8, coding: Coding) -> i128
    requires width { fits_coding (Some coding) (Some width) ≡ true }
    requires inside { at + width ≤ 8 * length packet.now }
    ensures { result ≡ raw_bits_at packet.now at width coding }
{
    let field = field(packet, at, width);
    match coding {
        Coding::Uint => field as i128,
        Coding::Int => twos_complement(width, field),
        Coding::UintLe => reversed(width / 8, field) as i128,
        Coding::IntLe => twos_complement(width, reversed(width / 8, field)),
    }
}
