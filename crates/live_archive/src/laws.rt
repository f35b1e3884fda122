//! Laws of the definitions and types, carried by functions that do nothing.

ghost use Rattle.live_archive.specs.Added.{AbandonsAdd, AsksAdd, AsksAddNothing, BeginsAdd, ClosesAdd, IngestsAdd, InstallsAdd};
ghost use Rattle.live_archive.specs.Laws.{BuiltIsRight, RightStays, TurnsAreTold};

use crate::held::HeldStore;
use crate::live::LiveOver;
use arch_disk::Disk;
use param_segments::Plan;
use replay_merge::cursor::Cursor;
use std::marker::{Send, Sync};
use store_fills::{FillTask, Filled};
use turn_cell::{Growing, Pass};

/// What a turn tells of its pass, in the words of its lists, lengths and places.
pub fn turns_are_told<D: Disk, T>()
    ensures { TurnsAreTold T D.device }
{}

/// What each call puts behind the lists that its turn finds, and nothing else, at whatever it answers.
pub fn calls_add<D: Disk, T>()
    ensures ingests { IngestsAdd T D.device }
    ensures begins { BeginsAdd T D.device }
    ensures installs { InstallsAdd T D.device }
    ensures abandons { AbandonsAdd T D.device }
    ensures closes { ClosesAdd T D.device }
    ensures asks { AsksAddNothing T D.device }
    ensures unread { AsksAdd T D.device }
{}

/// A fill that is built of a task may be installed by the pass with which the task began, whatever others do meanwhile.
pub fn fills_built_are_right<D: Disk, T>()
    ensures built { BuiltIsRight T D.device }
    ensures later { RightStays T D.device }
{}

fn is_sendable<T: Send>() {}

fn is_shareable<T: Sync>() {}

/// A task may go to another thread.
pub fn tasks_are_sendable() {
    is_sendable::<FillTask>()
}

/// So may a fill that is built.
pub fn fills_are_sendable() {
    is_sendable::<Filled>()
}

/// So may a plan.
pub fn plans_are_sendable() {
    is_sendable::<Plan>()
}

/// So may a replay.
pub fn cursors_are_sendable() {
    is_sendable::<Cursor>()
}

/// So may a store in turns where its disk may.
pub fn held_stores_are_sendable<D: Disk + Send>() {
    is_sendable::<HeldStore<D>>()
}

/// So may a pass where its value may.
pub fn passes_are_sendable<T: Growing + Send>() {
    is_sendable::<Pass<T>>()
}

/// Threads may use an archive at once whose value may go to another thread.
pub fn archives_are_shareable<T: Growing + Send>() {
    is_shareable::<LiveOver<T>>()
}
