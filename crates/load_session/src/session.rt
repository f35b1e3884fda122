//! What a dump had that was sent.

use space_packet::dump::Why;

/// What a dump had whose packets were all ingested.
#[derive(Clone, Copy, Debug)]
pub struct DumpSummary {
    /// All packets, idle ones counted too.
    pub packets: u64,
    pub idle: u64,
    /// The rows that the others are: one for each packet and table.
    pub routed: u64,
    /// The octet where the dump's rest begins.
    pub at: usize,
    /// What the rest is.
    pub why: Why,
}
