// The engineering value of a raw number by its parameter's calibration.
//
// The definition is `calibrated` in specs/Calibrated.antt: whole-number arithmetic in millionths, so that no value is rounded but by the
// quotient between two points, which is rounded down. Who has a database calls `calibrate_parameter` for each entry, and for stored raw numbers again:
// the database finds a label by halving, where `calibrate`, which has a calibration alone, looks at one label after the other.
//
// Neither takes memory or refuses: the rules of the sheets keep every sum and product within 128 bits and every value
// within 64 (specs/Admitted.antt says which rules). Among points it finds the raw number's two neighbours by halving, which is right since
// points rise. That a checked database keeps these rules is mdb_model's law (`IsStructured`); whoever changes a rule of calibrations or
// parameters there touches the bounds in proofs/Bounds.antt.
#![tactic(auto)]

mod calibrated;
mod points;
mod polynomial;
mod width;

pub use calibrated::{calibrate, calibrate_parameter};
pub use width::is_in_width;
