//! Values of parameters in one packet.

use arch_types::cell::Eng;
use item_list::Items;

/// A parameter's raw value in a packet.
#[derive(Clone, Copy, Debug, PartialEq, Eq)]
pub struct RawValue {
    /// The number of the parameter.
    pub parameter: u16,
    pub raw: i128,
}

/// A parameter's value in a packet.
#[derive(Clone, Copy, Debug, PartialEq, Eq)]
pub struct ParameterValue {
    /// The number of the parameter.
    pub parameter: u16,
    pub raw: i128,
    pub eng: Eng,
}

/// Values in the order of extraction.
pub type Values = Items<ParameterValue>;
