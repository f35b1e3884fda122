//! How a command ends by the rest of a dump that is no packet.

ghost use Rattle.std.specs.Prelude.{◌≡◌};

use refusals::{BadKind, Refusal};

/// The refusal of a dump that has no packet at an octet.
pub fn bad_packet(at: usize, kind: BadKind) -> Refusal
    ensures { result ≡ Refusal.BadPacket at kind }
{
    Refusal::BadPacket {
        at: at as u64,
        kind,
    }
}
