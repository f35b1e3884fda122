//! Calibrations: how a raw number becomes an engineering value.

use crate::name::MdbName;
use item_list::items::Items;

/// A coefficient of a polynomial.
#[derive(Drop, Clone, Copy)]
pub struct PolyRow {
    /// The power of the raw number, 0 to 3.
    pub exponent: u8,
    /// The coefficient in millionths.
    pub millionths: i64,
}

/// A point of a line of points.
#[derive(Drop, Clone, Copy)]
pub struct PointsRow {
    /// The raw number.
    pub x: i128,
    /// The engineering value there, in millionths.
    pub millionths: i64,
}

/// The label of a raw number.
#[derive(Drop)]
pub struct EnumRow {
    /// The raw number.
    pub x: i128,
    pub label: MdbName,
}

/// The rows of a calibration by its kind, in the order of the sheet.
#[derive(Drop)]
pub enum Calibrator {
    Poly(Items<PolyRow>),
    Points(Items<PointsRow>),
    Enum(Items<EnumRow>),
}

/// A calibration.
#[derive(Drop)]
pub struct Calibration {
    pub name: MdbName,
    pub calibrator: Calibrator,
}
