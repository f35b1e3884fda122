//! What finds the items of a mission database, made once beside them.
//!
//! Stands for: the numbers of items in the order of their names (`specs/NameOrder.antt`), which find a name by halving;
//! the raw numbers of labels in their order (`specs/LabelOrder.antt`), which find a label likewise; for each container
//! the numbers of those directly below it (`specs/Children.antt`), its condition, each comparison with its parameter's
//! place on the path above (`specs/PlacedConditions.antt`), and its children by the number that their conditions begin
//! by asking for (`specs/NumberedChildren.antt`); all of these together, and the calibration of a parameter
//! (`specs/Lookups.antt`); and whether two items are equal. The database calls it, and keeps what is made here.
//!
//! The one idea of the proof: items sorted by a key and then by their number (`specs/SortedKeys.antt`), so that halving
//! finds the one with the least number of a key (`proofs/FirstOfKey.antt`), which is the first in the sheet. Names and
//! raw numbers are two kinds of keys. A new field of an item goes into `equality` too.
#![tactic(auto)]

mod children;
pub mod equality;
pub mod label_order;
pub mod lookups;
pub mod name_order;
pub mod numbered_children;
mod placed_conditions;
