//! The machine that runs.

ghost use Rattle.std.specs.Prelude.{◌≡◌, IfOk, OnErr};
ghost use mathlib.Core.List.{IsPrefix};
ghost use Rattle.history_items.specs.Items.{items_of};
ghost use Rattle.archive_core.specs.Machine.{MachineRun, MachineStep};
ghost use Rattle.interval_fills.specs.Invariant.{MachineInvariant};
ghost use Rattle.archive_core.specs.Core.{first_core};

use crate::answers::answered;
use crate::event::Event;
use crate::fill_events::{abandoned, begin, installed};
use crate::ingests::ingested;
use crate::replays::replayed;
use crate::reply::{Replies, Reply};
use arch_types::name::Names;
use arch_types::row::Row;
use history_items::fills::Fill;
use intervals::Exponent;
use mdb_model::Mdb;
use std::alloc::{AllocError, Global};
use std::marker::Model;

/// An archive in memory. It goes over its lists at each event, and keeps nothing beside them.
#[derive(Drop)]
pub struct Core {
    /// The names of the tables, in the order of their numbers.
    tables: Names,
    mdb: Mdb,
    /// The history.
    rows: Vec<Row>,
    fills: Vec<Fill>,
    /// Of the intervals.
    exponent: Exponent,
}

impl Model for Core {
    ghost use Rattle.archive_core.specs.Core.{CoreView};
    ghost use Rattle.history_items.specs.Items.{items_of};
    ghost use Rattle.interval_fills.specs.Invariant.{MachineInvariant};
    ghost use Rattle.interval_fills.specs.Steps.{state_of};

    ghost Value = { CoreView };

    ghost view = { λ c. record {
      tables = c.tables;
      mdb = c.mdb;
      exponent = c.exponent;
      state = state_of (items_of c.rows.items) c.fills.items;
    } };

    ghost invariant = { λ c. MachineInvariant c.exponent (state_of (items_of c.rows.items) c.fills.items) };
}

impl Core {
    /// A machine before its first event, with intervals of this exponent. Takes no memory.
    pub fn new(alloc: Global, tables: Names, mdb: Mdb, exponent: Exponent) -> Self
        ensures { result ≡ first_core tables mdb exponent }
    {
        Core {
            tables,
            mdb,
            rows: Vec::new(alloc),
            fills: Vec::new(alloc),
            exponent,
        }
    }

    /// One event and its reply. The one error is want of memory, and then all is as before.
    #[tactic(auto, using(crate::proofs::OfRows::answered_by, crate::proofs::OfRows::replayed_by))]
    pub fn step(&mut self, alloc: Global, event: &Event) -> Result<Reply, AllocError>
        ensures step { IfOk result (λ reply.
            MachineStep self.old.exponent self.old.tables self.old.mdb self.old.state event.now reply self.new.state) }
        ensures archive { (self.new.tables ≡ self.old.tables) × (self.new.mdb ≡ self.old.mdb)
            × (self.new.exponent ≡ self.old.exponent) }
        ensures invariant { MachineInvariant self.new.exponent self.new.state }
        ensures refused { OnErr result (self.new ≡ self.old) }
    {
        match event {
            Event::Ingest { rows, .. } => ingested(alloc, &mut self.rows, rows.as_slice()),
            Event::Begin { .. } => begin(
                alloc,
                self.rows.as_slice(),
                &mut self.fills,
                self.exponent,
            ),
            Event::Install { interval, base, .. } => {
                installed(
                    self.rows.as_slice(),
                    &mut self.fills,
                    *interval,
                    *base,
                    self.exponent,
                )
            }
            Event::Abandon { interval, .. } => abandoned(&mut self.fills, *interval),
            Event::Retrieve { request, .. } => answered(
                alloc,
                &self.mdb,
                self.rows.as_slice(),
                request,
            ),
            Event::Replay { request, .. } => {
                replayed(
                    alloc,
                    &self.tables,
                    &self.mdb,
                    self.rows.as_slice(),
                    request,
                )
            }
        }
    }

    /// Events one after the other, and their replies. The one error is want of memory, and then all is as before the first.
    #[tactic(auto, using(crate::proofs::OfRows::taken_back))]
    pub fn run(&mut self, alloc: Global, events: &[Event]) -> Result<Replies, AllocError>
        ensures run { IfOk result (λ replies.
            MachineRun self.old.exponent self.old.tables self.old.mdb self.old.state events.now replies self.new.state) }
        ensures archive { (self.new.tables ≡ self.old.tables) × (self.new.mdb ≡ self.old.mdb)
            × (self.new.exponent ≡ self.old.exponent) }
        ensures invariant { MachineInvariant self.new.exponent self.new.state }
        ensures refused { OnErr result (self.new ≡ self.old) }
    {
        let rows = self.rows.len();
        let fills = self.fills.len();
        match self.run_each(alloc, events) {
            Ok(replies) => Ok(replies),
            Err(error) => {
                self.rows.truncate(rows);
                self.fills.truncate(fills);
                Err(error)
            }
        }
    }

    /// The same. Refused for want of memory, the machine stands behind some of the events.
    fn run_each(&mut self, alloc: Global, events: &[Event]) -> Result<Replies, AllocError>
        ensures run { IfOk result (λ replies.
            MachineRun self.old.exponent self.old.tables self.old.mdb self.old.state events.now replies self.new.state) }
        ensures archive { (self.new.tables ≡ self.old.tables) × (self.new.mdb ≡ self.old.mdb)
            × (self.new.exponent ≡ self.old.exponent) }
        ensures history { IsPrefix self.old.state.history self.new.state.history }
        ensures fills { IsPrefix self.old.state.fills self.new.state.fills }
    {
        let mut replies = Replies::new(alloc);
        for event in events {
            let reply = self.step(alloc, event)?;
            replies.push(reply)?;
        }
        Ok(replies)
    }

    /// The rows of the history, in the order in which they came to stay.
    pub fn rows(&self) -> &[Row]
        ensures { items_of result.now ≡ self.now.state.history }
    {
        self.rows.as_slice()
    }

    /// What happened to fills, in its order.
    pub fn fills(&self) -> &[Fill]
        ensures { result.now ≡ self.now.state.fills }
    {
        self.fills.as_slice()
    }
}
