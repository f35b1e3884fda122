//! The primary header of a packet (CCSDS 133.0-B-2, section 4.1.3).

ghost use Rattle.std.specs.Prelude.{◌≡◌, ◌<◌, ◌≤◌, ◌↔◌, ◌==◌, length, IfOk, IsErr, slice_index};
ghost use Rattle.arch_types.specs.Packet.{IsPacket, packet_length, type_of, secondary_flag, apid_of, flags_of, sequence_count_of, is_idle};

/// The packet version number isn't 000.
#[derive(Clone, Copy, Debug, PartialEq, Eq)]
pub struct Version;

/// The fields of a primary header.
#[derive(Clone, Copy, Debug, PartialEq, Eq)]
pub struct Header {
    /// The packet type: telecommand, or else telemetry (4.1.3.3.2).
    pub telecommand: bool,
    /// The secondary header flag (4.1.3.3.3).
    pub secondary: bool,
    /// The application process identifier, below 2,048 (4.1.3.3.4).
    pub apid: u16,
    /// The sequence flags: 0 continuation, 1 first, 2 last, 3 unsegmented (4.1.3.4.2).
    pub flags: u8,
    /// The packet sequence count, below 16,384 (4.1.3.4.3).
    pub count: u16,
    /// All octets of the packet, 7 to 65,542 (4.1.3.5).
    pub length: u32,
}

impl Header {
    /// Reads the six octets of a primary header. The one error is another packet version number than 000. Takes no memory.
    pub fn read(octets: &[u8; 6]) -> Result<Header, Version>
        ensures version { IsErr result ↔ (32 ≤ slice_index octets.now 0) }
        ensures telecommand { IfOk result (λ h. h.telecommand ≡ (type_of octets.now == 1)) }
        ensures secondary { IfOk result (λ h. h.secondary ≡ (secondary_flag octets.now == 1)) }
        ensures apid { IfOk result (λ h. h.apid ≡ apid_of octets.now) }
        ensures flags { IfOk result (λ h. h.flags ≡ flags_of octets.now) }
        ensures count { IfOk result (λ h. h.count ≡ sequence_count_of octets.now) }
        ensures length { IfOk result (λ h. h.length ≡ packet_length octets.now) }
    {
        if octets[0] >= 32 {
            return Err(Version);
        }
        Ok(Header {
            telecommand: octets[0] / 16 % 2 == 1,
            secondary: has_secondary_header(octets.as_slice()),
            apid: apid(octets.as_slice()),
            flags: octets[2] / 64,
            count: 256 * u16::from(octets[2] % 64) + u16::from(octets[3]),
            length: total_length(octets.as_slice()) as u32,
        })
    }
}

/// Whether a packet is idle: its APID is 2047. Takes no memory.
pub fn is_idle_packet(packet: &[u8]) -> bool
    requires { IsPacket packet.now }
    ensures { result ≡ is_idle packet.now }
{
    apid(packet) == 2047
}

/// Whether the packet that begins with this header has a secondary header.
pub(crate) fn has_secondary_header(header: &[u8]) -> bool
    requires { 1 ≤ length header.now }
    ensures { result ≡ (secondary_flag header.now == 1) }
{
    header[0] / 8 % 2 == 1
}

/// The application process identifier of a header.
fn apid(header: &[u8]) -> u16
    requires { 2 ≤ length header.now }
    ensures { result ≡ apid_of header.now }
{
    256 * u16::from(header[0] % 8) + u16::from(header[1])
}

/// All octets of the packet that begins with this header.
pub(crate) fn total_length(header: &[u8]) -> usize
    requires { 6 ≤ length header.now }
    ensures value { result ≡ packet_length header.now }
    ensures bound { result < 65543 }
{
    7 + 256 * usize::from(header[4]) + usize::from(header[5])
}
