//! Parameters: how a field of a packet is read.

use crate::name::MdbName;

/// How the bits of a field are a number: unsigned or in two's complement, the first octet the highest or the lowest.
#[derive(Drop, Clone, Copy)]
pub enum Coding {
    Uint,
    Int,
    UintLe,
    IntLe,
}

/// A parameter.
#[derive(Drop)]
pub struct Parameter {
    pub name: MdbName,
    pub coding: Coding,
    /// The width of the field, 1 to 64 bits.
    pub bits: u8,
    /// The number of its calibration, if it has one.
    pub calibration: Option<usize>,
}
