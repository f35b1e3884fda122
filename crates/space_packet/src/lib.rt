// Space packets (CCSDS 133.0-B): their primary headers, their keys, and the packets of a dump.
//
// A dump is packets one after the other with nothing between them, and a rest that begins with no packet (`IsDump` of
// arch_types). `split` gives its packets as parts of the dump's own block, for callers that keep them; `DumpPackets`
// gives one place after the other and holds nothing, for callers that pass over them once; `Splitter` takes a dump in
// pieces as they are read, and keeps only those in which octets still wait. `Header::read` gives the fields of a
// primary header, and `key_of` the key of a packet, both without memory. Callers: scan and the load session; whatever
// reads the header of a stored packet.
//
// The one idea of the proof is `IsCut`: some packets joined are the octets of the dump before a place. It holds of no
// packets at 0, the lemmas of proofs/Cuts.antt carry it over one more packet, and where no packet begins at the place
// it is `IsDump`. Of pieces `IsSplitSoFar` says the same: what was fed is the packets given, joined, and what waits;
// `split_pieces` is the law that the pieces then split as the whole dump does.
//
// To be changed together: the fields in src/header.rt and their definitions in arch_types' specs/Packet.antt;
// `first_packet` and `why_of`.
#![tactic(auto)]

pub mod dump;
pub mod header;
pub mod key;
pub mod packets;
pub mod split;
pub mod splitter;
