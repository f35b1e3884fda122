//! Containers: which parameters stand where in a packet, and when.

use crate::name::MdbName;
use item_list::items::Items;

/// How a condition compares a parameter's raw value with a number.
#[derive(Drop, Clone, Copy)]
pub enum Operator {
    Equal,
    NotEqual,
    Less,
    LessOrEqual,
    Greater,
    GreaterOrEqual,
}

/// One comparison of a condition.
#[derive(Drop, Clone, Copy)]
pub struct Comparison {
    /// The number of the parameter that is compared; a sheet may have more than the limit here (D-119).
    pub parameter: usize,
    pub operator: Operator,
    pub number: i128,
}

/// A parameter at its place.
#[derive(Drop, Clone, Copy)]
pub struct ParameterEntry {
    /// The number of the parameter.
    pub parameter: usize,
    /// The bit of the packet, from 0, at which its field begins.
    pub at: u32,
}

/// A container.
#[derive(Drop)]
pub struct Container {
    pub name: MdbName,
    /// The number of its parent, which only the root lacks.
    pub parent: Option<usize>,
    /// Its packets are archived under its name.
    pub archive: bool,
    /// The comparisons that all hold where a packet of the parent belongs to this container.
    pub condition: Items<Comparison>,
    /// The container's own entries in their order.
    pub entries: Items<ParameterEntry>,
}
