//! A sink in memory.

ghost use Rattle.std.specs.Prelude.{◌≡◌, []};
ghost use Rattle.outer_traits.specs.MemSink.{is_failing_write};

use crate::fault::{Failed, raised};
use crate::sink::Sink;
use std::alloc::Global;

/// A sink that keeps what is written. A write for which there's no memory fails.
#[derive(Drop)]
pub struct MemSink {
    pub octets: Vec<u8>,
    /// The numbers of the calls that are to fail, from 1.
    calls: Vec<u64>,
    /// How many calls were made.
    writes: u64,
    faults: u64,
}

/// Whether a write is among those that are to fail.
fn is_listed(calls: &[u64], write: u64) -> bool
    ensures { result ≡ is_failing_write calls.now write }
{
    calls.contains(&write)
}

impl MemSink {
    /// An empty sink of which no call is to fail.
    pub fn new(alloc: Global) -> Self
        ensures empty { result.octets.items ≡ [] }
        ensures no_calls { result.calls.items ≡ [] }
        ensures no_faults { result.faults ≡ 0 }
    {
        MemSink::failing(alloc, Vec::new(alloc))
    }

    /// An empty sink of which the calls of these numbers are to fail.
    pub fn failing(alloc: Global, calls: Vec<u64>) -> Self
        ensures empty { result.octets.items ≡ [] }
        ensures calls { result.calls ≡ calls }
        ensures none_made { result.writes ≡ 0 }
        ensures no_faults { result.faults ≡ 0 }
    {
        MemSink {
            octets: Vec::new(alloc),
            calls,
            writes: 0,
            faults: 0,
        }
    }
}

impl Sink for MemSink {
    ghost use Rattle.std.specs.Prelude.{◌≡◌, ◌≤◌, ◌<◌, Some, Ok, true, IfOk, IsErr, OnOk, OnErr, length};
    ghost use Rattle.outer_traits.specs.MemSink.{is_failing_write};
    ghost use Rattle.outer_traits.specs.Outside.{HasRisen, Stays, Writes, WritesSome, one_more};

    ghost state = { λ sink. record { written = Some sink.octets.items; faults = sink.faults } };

    /// The writes that are listed fail. Another appends the whole piece, or fails for want of memory.
    fn write(&mut self, piece: &[u8]) -> Result<usize, Failed>
        ensures numbered { self.new.writes ≡ one_more self.old.writes }
        ensures listed_fails { is_failing_write self.old.calls.items self.new.writes ≡ true → IsErr result }
        ensures same_calls { self.new.calls ≡ self.old.calls }
        ensures whole { IfOk result (λ n. n ≡ length piece.now) }
        ensures count { IfOk result (λ n. n ≤ length piece.now) }
        ensures appended { IfOk result (λ n. Writes (Some self.old.octets.items) (Some self.new.octets.items) n
            piece.now) }
        ensures some { OnErr result (WritesSome (Some self.old.octets.items) (Some self.new.octets.items) piece.now) }
        ensures later { self.old.faults ≤ self.new.faults }
        ensures failed { IsErr result → HasRisen self.old.faults self.new.faults }
        ensures nothing { result ≡ Ok 0 → 0 < length piece.now → HasRisen self.old.faults self.new.faults }
        ensures no_fault { IfOk result (λ n. 0 < n → Stays self.old.faults self.new.faults) }
        ensures no_fault_empty { OnOk result (length piece.now ≡ 0 → Stays self.old.faults self.new.faults) }
    {
        self.writes = self.writes.saturating_add(1);
        if is_listed(self.calls.as_slice(), self.writes)
            || self.octets.extend_from_slice(piece).is_err()
        {
            self.faults = raised(self.faults);
            return Err(Failed);
        }
        Ok(piece.len())
    }
}
