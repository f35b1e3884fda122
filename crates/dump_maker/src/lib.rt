// Dumps of made packets, octet for octet the same wherever they are made: what an archive is tried on.
//
// Each packet is telemetry of 16 octets whose fields follow from its place, and with the seed from nothing else
// (`made_packet` in specs/Made.antt). A link's dump is packets in a row; the links' passes overlap, so that all but the
// first meet packets that another link has sent. `make_sheets` is a mission database for them. `laws` says of a made
// packet what its fields are, of a made dump that it is split into just these packets, and of the sheets that they
// break no rule. Callers: the command that makes an archive of such packets, and tests.
//
// To be changed together: `put_packet` and `made_packet`; the sheets of src/ and of specs/.
#![tactic(auto)]

pub mod dumps;
pub mod laws;
pub mod sheets;
