//! The key of a packet.

ghost use Rattle.std.specs.Prelude.{◌≡◌, ◌+◌, ◌^◌, ◌<◌, ◌≤◌, length};
ghost use Rattle.arch_types.specs.Packet.{IsPacket};
ghost use Rattle.arch_types.specs.GenerationTime.{number_of_2, number_of_4, key_of};

use crate::header::has_secondary_header;
use arch_types::key::Key;

/// The key of one whole packet that was received at a time, in milliseconds since 1970: the generation time of its secondary header,
/// or the reception time where it tells none, and its first four octets as a number. Takes no memory.
pub fn key_of(packet: &[u8], rectime: i64) -> Key
    requires { IsPacket packet.now }
    ensures { result ≡ key_of packet.now rectime }
{
    let seq = read_u32(packet, 0);
    if has_secondary_header(packet) && packet.len() >= 12 {
        let seconds = u64::from(read_u32(packet, 6));
        let fraction = u64::from(read_u16(packet, 10));
        let time = (1000 * seconds + fraction * 1000 / 65536) as i64;
        Key { time, seq }
    } else {
        Key { time: rectime, seq }
    }
}

/// Two octets as a number, the first the highest.
fn read_u16(octets: &[u8], at: usize) -> u32
    requires { at + 2 ≤ length octets.now }
    ensures value { result ≡ number_of_2 octets.now at }
    ensures range { result < 2 ^ 16 }
{
    256 * u32::from(octets[at]) + u32::from(octets[at + 1])
}

/// Four octets as a number, the first the highest.
fn read_u32(octets: &[u8], at: usize) -> u32
    requires { at + 4 ≤ length octets.now }
    ensures { result ≡ number_of_4 octets.now at }
{
    65536 * read_u16(octets, at) + read_u16(octets, at + 2)
}
