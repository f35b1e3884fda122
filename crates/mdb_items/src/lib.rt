//! What a mission database consists of: parameters, calibrations, containers, and the three sheets that say them.
//!
//! Stands for: the items (`Parameter`, `Calibration`, `Container`), the records of the sheets, the texts of their fields
//! (`specs/Texts.antt`), the rules of each sheet (`specs/ParameterRows.antt`, `specs/CalibrationRows.antt`,
//! `specs/ContainerRows.antt`, `specs/Conditions.antt`), what a database is (`specs/Database.antt`) and what is true of one
//! (`specs/Structure.antt`). The crates above check rows by the rules, and read and write the octets.
#![tactic(auto)]

pub mod calibration;
pub mod container;
pub mod fault;
pub mod name;
pub mod not_mdb;
pub mod parameter;
pub mod rows;
pub mod sheet;
pub mod texts;

pub use calibration::{Calibration, Calibrator, EnumRow, PointsRow, PolyRow};
pub use container::{Comparison, Container, Operator, ParameterEntry};
pub use fault::{MdbFault, MdbLimit, MdbSheet};
pub use name::MdbName;
pub use not_mdb::NotMdb;
pub use parameter::{Coding, Parameter};
pub use sheet::{RawMdb, Record, Sheet, SheetRecord};
