//! All that finds the items of one database.

ghost use Rattle.std.specs.Prelude.{◌≤◌, length, IfOk};
ghost use Rattle.mdb_items.specs.Paths.{AreEarlier};
ghost use Rattle.mdb_lookups.specs.Lookups.{AreLookups};

use crate::children::children_of;
use crate::label_order::label_orders;
use crate::name_order::name_order;
use crate::numbered_children::{NumberedChildren, numbered_children};
use crate::placed_conditions::placed_conditions;
use item_list::items::Items;
use mdb_items::calibration::Calibration;
use mdb_items::container::{Comparison, Container};
use mdb_items::parameter::Parameter;
use std::alloc::{AllocError, Global};

/// What finds the items of three lists, beside them.
#[derive(Drop)]
pub struct Lookups {
    /// The numbers of the parameters in the order of their names (D-67).
    pub parameter_order: Vec<u16>,
    /// The numbers of the containers in the order of their names.
    pub container_order: Vec<u16>,
    /// For each container the numbers of those directly below it.
    pub children: Vec<Items<u16>>,
    /// For each container its condition, each comparison with its place on the path of the parent (D-72).
    pub placed_conditions: Vec<Items<(Comparison, usize)>>,
    /// For each container those directly below it, by the numbers that their conditions begin by asking for.
    pub numbered_children: Vec<NumberedChildren>,
    /// For each calibration the raw numbers of its labels with their rows, sorted.
    pub label_orders: Vec<Items<(i128, usize)>>,
}

impl Lookups {
    /// What finds the items of these lists. The one refusal is want of memory.
    pub fn for_items(
        alloc: Global,
        parameters: &[Parameter],
        calibrations: &[Calibration],
        containers: &[Container],
    ) -> Result<Lookups, AllocError>
        requires few_parameters { length parameters.now ≤ 4096 }
        requires few_containers { length containers.now ≤ 4096 }
        requires earlier { AreEarlier containers.now }
        ensures { IfOk result (λ lookups. AreLookups parameters.now calibrations.now containers.now lookups) }
    {
        let parameter_order = name_order(alloc, parameters)?;
        let container_order = name_order(alloc, containers)?;
        let children = children_of(alloc, containers)?;
        let placed_conditions = placed_conditions(alloc, containers)?;
        let numbered_children = numbered_children(
            alloc,
            children.as_slice(),
            placed_conditions.as_slice(),
        )?;
        let label_orders = label_orders(alloc, calibrations)?;
        Ok(Lookups {
            parameter_order,
            container_order,
            children,
            placed_conditions,
            numbered_children,
            label_orders,
        })
    }
}
