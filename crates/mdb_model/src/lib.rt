// The mission database: parameters, the calibrations of their values, and the containers that say where in a packet
// they stand (XTCE's terms). `Mdb::check` takes three sheets of octet fields, and answers the first rule that they
// break, or else the first limit that they pass. `Mdb::to_bytes` and `Mdb::from_bytes` spell a database in octets.
// A database's type keeps what `IsDatabase` of mdb_items says: its own rows spell it, they break no rule, and
// it passes no limit. Copies share the items. Beside them stands what finds them, made by mdb_lookups (specs/Inside.antt).
// `laws` says what callers need of any database. The rules stand in mdb_items, each as a numbered test of one row below
// the items above it; mdb_rules asks them, and mdb_octets has the octets.
// The one idea of the proof: reading, checking and decoding all take rows in one after the other, below what those
// before them spell, so one law of a row's tests serves each. Decoded lists go through the same tests, and are accepted
// where they are spelled as the octets were.
// Whoever changes a rule changes its list of tests in mdb_items, and the function in mdb_rules whose name ends in `broken`. A new
// field of an item also goes into the rows of that item, into mdb_octets, and into the equality of mdb_lookups.
// Those who read sheets, decode packets and store archives stand on this crate.
#![tactic(auto)]

pub mod laws;
mod mdb;
mod rechecking;
mod sheet_rows;
mod sheets;

pub use item_list::Items;
pub use mdb::Mdb;
pub use mdb_items::{
    Calibration, Calibrator, Coding, Comparison, Container, EnumRow, MdbFault, MdbLimit, MdbName,
    MdbSheet, NotMdb, Operator, Parameter, ParameterEntry, PointsRow, PolyRow, RawMdb, Record,
    Sheet, SheetRecord,
};
