// What a packet's octets say by a mission database: bit fields, the chain of containers, and the values of their entries.
//
// The definitions stand in specs/: Bits takes the packet as one number and says what a field is (CCSDS 133.0-B counts bits from the first one
// on), Values says what an entry's raw value is, its engineering value, and when a condition holds, Chain is a relation between a packet and a
// list of container numbers (`IsChain`, of which `laws` says that there is exactly one), and Extraction is the values along it, raw and
// calibrated. Answer is the answer to a request over a history: the plain machine and retrieval both say it by that one definition. An
// `Extractor` takes the raw values of one packet after the other and takes memory once; `eng_of` calibrates those that are asked for. The
// archive names each arrival and reads packets by an `Extractor`; `extract` and `packet_name` are for one packet alone.
//
// The idea of the proof: whatever goes on from the containers so far makes a chain (proofs/Walk.antt), so that the walk ends with one.
// The values so far are those of the path's entries in their order, so that a condition finds each value at the place that the database keeps
// beside the comparison (proofs/Placed.antt). A child whose condition begins by asking for another number than the one that stands there
// doesn't hold, so that it need not be asked (proofs/ByNumber.antt).
// A container's children all stand after it in the sheet, so the walk ends: that and what else is used of a database is mdb_model's law (`IsStructured`).
//
// A caller has one extractor for all packets, and calibrates the values that it asks for:
//
//     /// What a packet says of a parameter, where it has it.
//     fn value_in<L: Ledger>(
//         extractor: &mut Extractor,
//         mdb: &Mdb,
//         packet: &[u8],
//         parameter: u16,
//         steps: &mut Steps<L>,
//     ) -> Option<Eng> {
//         match extractor.extract(mdb, packet, steps).value(parameter) {
//             Some(value) => Some(eng_of(mdb, *value)),
//             None => None,
//         }
//     }
#![tactic(auto)]

pub mod chain;
mod conditions;
mod containers;
mod engineering;
mod entries;
mod extraction;
mod fields;
pub mod laws;
mod raw_extraction;
pub mod values;

pub use engineering::eng_of;
pub use extraction::{Extracted, extract, packet_name};
pub use fields::bits;
pub use raw_extraction::{Extractor, RawExtracted};
