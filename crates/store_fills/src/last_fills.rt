//! The last fills of intervals.

ghost use Rattle.std.specs.Prelude.{◌≡◌, ◌≤◌, [], Some, None, OnOk, IfSome, IfNone};
ghost use Rattle.store_fills.specs.Sound.{with_filling};
ghost use Rattle.store_fills.specs.LastFills.{fillings_in, filling_of};

use block_map::index::Index;
use intervals::Interval;
use param_segments::SegSet;
use std::alloc::{AllocError, Global};
use std::marker::Model;
use std::sync::Arc;

/// The last fill of an interval: its base and its set.
#[derive(Drop)]
pub struct LastFill {
    pub base: u64,
    pub set: Arc<SegSet, Global>,
}

/// The last fill of each interval that has one.
#[derive(Drop)]
pub struct LastFills {
    /// Where the fill of an interval stands.
    places: Index<Interval, usize>,
    fills: Vec<LastFill>,
}

impl Model for LastFills {
    ghost use Rattle.store_fills.specs.LastFills.{LastFillsView, HaveOwnPlaces, last_fills_of};

    ghost Value = { LastFillsView };

    ghost view = { λ s. last_fills_of s.places s.fills };

    ghost invariant = { λ s. HaveOwnPlaces s.places.entries s.fills.items };
}

impl LastFills {
    /// No fill. Takes no memory.
    pub fn new(alloc: Global) -> Self
        ensures { result.filled.entries ≡ [] }
    {
        LastFills {
            places: Index::new(alloc),
            fills: Vec::new(alloc),
        }
    }

    /// Makes room for one more. Refused, all but room is as before.
    pub fn reserve(&mut self) -> Result<(), AllocError>
        ensures ok { OnOk result (1 ≤ self.new.room) }
        ensures same { self.new.filled ≡ self.old.filled }
    {
        self.fills.reserve(1)?;
        self.places.reserve(1)
    }

    /// The fill of an interval is this one from now on. Takes no memory.
    pub fn put(&mut self, interval: Interval, fill: LastFill)
        requires { 1 ≤ self.old.room }
        ensures { fillings_in self.new.filled ≡ with_filling (fillings_in self.old.filled) interval (filling_of fill) }
    {
        match self.places.get(interval) {
            Some(at) => self.fills[at] = fill,
            None => {
                let at = self.fills.len();
                self.places.insert(interval, at);
                self.fills.push_reserved(fill);
            }
        }
    }

    /// The fill of an interval.
    pub fn get(&self, interval: Interval) -> Option<&LastFill>
        ensures some { IfSome result (λ fill. fillings_in self.now.filled interval ≡ Some (filling_of fill.now)) }
        ensures none { IfNone result (fillings_in self.now.filled interval ≡ None) }
    {
        let at = self.places.get(interval)?;
        Some(&self.fills[at])
    }
}
