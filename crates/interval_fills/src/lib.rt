//! Fills of intervals: the rows of an interval, how a fill of it begins and ends, and what that leaves of lateness.
//!
//! A state is a history and a fill list (`MachineState`). Which base an interval's last fill has, and which intervals
//! are in flight, is what the fill list tells (history_items). What an event does to a state is a relation between two
//! states (specs/Steps.antt): rows that come in, a fill that begins, one that is installed or given up. archive_core
//! puts the steps in a row; the store says of its calls which they are (`IsFillBegun`, `IsStoreInstalled`). That a
//! fill's base is one that it may have (`IsFillBase`) is looked at beside `InstallsFill`, by who installs: one of another
//! base gets no answer of the machine, and the store refuses it.
//!
//! The one law under all (`RowsAreThoseBelow`): where nothing that changes an interval stands at or after a front, the
//! interval's rows, in the order of their keys, are those below the front. So what was built of the rows below a fill's
//! base stays right for as long as the interval isn't late. The idea of its proof: a row whose time is outside the
//! interval leaves the interval's rows as they are, wherever the order of keys puts it. What holds of every state that
//! steps reach is `MachineInvariant` (specs/Invariant.antt). Nothing here runs: `laws` carries the proofs.
#![tactic(auto)]

pub mod laws;
