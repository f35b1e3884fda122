//! The histogram.

ghost use Rattle.std.specs.Prelude.{◌≡◌, ◌≢◌, ℕ, ℤ, ◌+◌, ◌<◌, ◌^◌, List, [], ◌∷◌, ◌++◌, max, IfOk, OnOk, OnErr};
ghost use Rattle.histogram.specs.Times.{named_times, spans_of, spans_of_times, AreOneSpan, IsHistogramOf, HasTimes};

use crate::near::{SpanStart, put_span};
use crate::one_name::put_behind;
use crate::walk::next_of;
use arch_types::spans::{Span, Spans};
use block_map::index::Index;
use std::alloc::{AllocError, Global};
use std::marker::Model;

/// A time of a packet name. Ordered by the name's number and then by the time.
#[derive(Clone, Copy, Debug, PartialEq, Eq, PartialOrd, Ord)]
pub struct NamedTime {
    pub pname: u16,
    /// In milliseconds.
    pub time: i64,
}

/// The records of packet names.
#[derive(Drop)]
pub struct Histogram {
    alloc: Global,
    /// The records, each under its packet name and its last time.
    index: Index<NamedTime, SpanStart>,
    /// No fewer than the times that all records have.
    rows: u64,
    /// How many more take no memory.
    room: u64,
}

impl Model for Histogram {
    ghost use Rattle.histogram.specs.Times.{HistogramView};
    ghost use Rattle.histogram.specs.Histogram.{histogram_view, IsHistogram};

    ghost Value = { HistogramView };

    ghost view = { λ h. histogram_view h.index h.room };

    ghost invariant = { λ h. IsHistogram h.index h.rows h.room };
}

impl Histogram {
    /// No record, and no room. Takes no memory.
    pub fn new(alloc: Global) -> Self
        ensures empty { result ≡ record { records = []; room = 0 } }
        ensures times { IsHistogramOf result [] }
    {
        Histogram {
            alloc,
            index: Index::new(alloc),
            rows: 0,
            room: 0,
        }
    }

    /// Makes the room at least `rows`. The one error is want of memory, and then all is as before.
    pub fn reserve(&mut self, rows: u64) -> Result<(), AllocError>
        ensures ok { OnOk result (self.new ≡ record { records = self.old.records; room = max self.old.room rows }) }
        ensures err { OnErr result (self.new ≡ self.old) }
        ensures full { OnErr result (self.old.room < rows) }
        ensures times { (times : List NamedTime) → IsHistogramOf self.old times → IsHistogramOf self.new times }
    {
        if rows <= self.room {
            return Ok(());
        }
        if self.rows.checked_add(rows).is_none() {
            return Err(AllocError);
        }
        self.index.reserve(rows as usize)?;
        self.room = rows;
        Ok(())
    }

    /// Adds the time of a row with this packet name, in milliseconds. Takes no memory.
    pub fn add(&mut self, pname: u16, time: i64)
        requires { 0 < self.old.room }
        ensures times { (times : List NamedTime) → IsHistogramOf self.old times → IsHistogramOf self.new (times ++ record
            { pname = pname; time = time } ∷ []) }
        ensures added { (times : List ℤ) → spans_of pname self.old ≡ spans_of_times times → spans_of pname self.new ≡ spans_of_times
            (times ++ time ∷ []) }
        ensures others { (other : ℕ) → other ≢ pname → spans_of other self.new ≡ spans_of other self.old }
        ensures room { self.new.room + 1 ≡ self.old.room }
    {
        self.rows += 1;
        self.room -= 1;
        let at = Span {
            first: time,
            last: time,
            count: 1,
        };
        put_span(&mut self.index, pname, at);
    }

    /// Adds times of rows with this packet name that make one record, as `add` does one after the other. The room stays for others.
    /// The one error is want of memory, and then all is as before.
    pub fn add_span(&mut self, pname: u16, span: Span) -> Result<(), AllocError>
        requires { (times : List ℤ) × AreOneSpan span times }
        ensures times { OnOk result ((times : List NamedTime) (more : List ℤ) → IsHistogramOf self.old times →
            AreOneSpan span more → IsHistogramOf self.new (times ++ named_times pname more)) }
        ensures added { OnOk result ((times more : List ℤ) → spans_of pname self.old ≡ spans_of_times times →
            AreOneSpan span more → spans_of pname self.new ≡ spans_of_times (times ++ more)) }
        ensures others { (other : ℕ) → other ≢ pname → spans_of other self.new ≡ spans_of other self.old }
        ensures room { self.new.room ≡ self.old.room }
        ensures err { OnErr result (self.new ≡ self.old) }
    {
        let rows = rows_with(self.rows, span.count, self.room)?;
        self.index.reserve(self.room as usize + 1)?;
        self.rows = rows;
        put_span(&mut self.index, pname, span);
        Ok(())
    }

    /// The records of one packet name alone, to which more times may be added. The one error is want of memory.
    pub fn of_name(&self, pname: u16) -> Result<Histogram, AllocError>
        ensures same { IfOk result (λ histogram. spans_of pname histogram ≡ spans_of pname self.now) }
        ensures alone { IfOk result (λ histogram. (other : ℕ) → other ≢ pname → spans_of other histogram ≡ []) }
    {
        let least = NamedTime {
            pname,
            time: i64::MIN,
        };
        let mut entries = self.index.from_key(least);
        let mut index = Index::new(self.alloc);
        while let Some(span) = next_of(&mut entries, pname) {
            index.reserve(1)?;
            put_behind(&mut index, pname, span);
        }
        Ok(Histogram {
            alloc: self.alloc,
            index,
            rows: self.rows,
            room: 0,
        })
    }

    /// The records of a packet name, in the order of their times. The one error is want of memory.
    pub fn records(&self, pname: u16) -> Result<Spans, AllocError>
        ensures records { IfOk result (λ spans. spans ≡ spans_of pname self.now) }
        ensures times { HasTimes self.now }
    {
        let least = NamedTime {
            pname,
            time: i64::MIN,
        };
        let mut entries = self.index.from_key(least);
        let mut spans = Spans::new(self.alloc);
        while let Some(span) = next_of(&mut entries, pname) {
            spans.push(span)?;
        }
        Ok(spans)
    }
}

/// How many rows there are with more of them, where numbers of 64 bits hold those and the room.
fn rows_with(rows: u64, more: u64, room: u64) -> Result<u64, AllocError>
    ensures rows { IfOk result (λ all. all ≡ rows + more) }
    ensures small { OnOk result (rows + more + room < 2 ^ 64) }
{
    let all = rows.checked_add(more).ok_or(AllocError)?;
    all.checked_add(room).ok_or(AllocError)?;
    Ok(all)
}
