//! Inputs whose octets come over and over, so that a test may have more of them than memory.

ghost use Rattle.std.specs.Prelude.{◌≤◌, length};

use outer_traits::fault::{Failed, OpenFault};
use outer_traits::gate::Gate;
use outer_traits::inputs::Inputs;
use outer_traits::source::Source;
use std::alloc::Global;
use std::sync::atomic::{AtomicU64, Ordering};

/// An input: its name, its octets, and how many times they come again behind the first.
pub(crate) type Repeated<'a> = (&'a str, &'a [u8], u64);

/// The gate of a load of such inputs, which sees whether one of them is read on before a link sends anything.
#[derive(Drop)]
pub(crate) struct ReadOrder {
    passes: AtomicU64,
    /// 1 once one was.
    is_early: AtomicU64,
}

impl ReadOrder {
    pub(crate) fn new() -> ReadOrder {
        ReadOrder {
            passes: AtomicU64::new(0),
            is_early: AtomicU64::new(0),
        }
    }

    /// A source is read, for the first time or again.
    fn read(&self, reads: u64) {
        if reads == 2 && self.passes.load(Ordering::SeqCst) == 0 {
            self.is_early.store(1, Ordering::SeqCst);
        }
    }

    /// Whether a link sent something, before any source was read a second time.
    pub(crate) fn sent_first(&self) -> bool {
        self.passes.load(Ordering::SeqCst) > 0 && self.is_early.load(Ordering::SeqCst) == 0
    }
}

impl Gate for ReadOrder {
    fn pass(&self, _job: u32, _turn: u64) {
        self.passes.fetch_add(1, Ordering::SeqCst);
    }
}

/// One that was opened. It tells no contents, and never fails.
#[derive(Drop)]
pub(crate) struct RepeatedSource<'a> {
    order: &'a ReadOrder,
    reads: u64,
    octets: Vec<u8>,
    /// Where the octets begin that are left of this time, and how many times come behind it.
    at: usize,
    again: u64,
    faults: u64,
    ghost within: { at ≤ length octets.items },
}

impl<'a> Source for RepeatedSource<'a> {
    ghost use Rattle.std.specs.Prelude.{◌≤◌, None, length};

    ghost state = { λ source. record { left = None; faults = source.faults; never_fails = ⊥ } };

    fn read(&mut self, into: &mut [u8]) -> Result<usize, Failed> {
        self.reads = self.reads.saturating_add(1);
        self.order.read(self.reads);
        if self.at == self.octets.len() && self.again > 0 {
            self.again -= 1;
            self.at = 0;
        }
        let n = into.len().min(self.octets.len() - self.at);
        let (_, left) = self.octets.as_slice().split_at(self.at);
        into[..n].copy_from_slice(&left[..n]);
        self.at += n;
        Ok(n)
    }
}

/// Such inputs.
#[derive(Drop)]
pub(crate) struct RepeatingInputs<'a> {
    inputs: &'a [Repeated<'a>],
    order: &'a ReadOrder,
    /// Sources that are open, and those that were given.
    held: u64,
    given: u64,
    faults: u64,
}

impl<'a> RepeatingInputs<'a> {
    pub(crate) fn new(inputs: &'a [Repeated<'a>], order: &'a ReadOrder) -> Self {
        RepeatingInputs {
            inputs,
            order,
            held: 0,
            given: 0,
            faults: 0,
        }
    }
}

/// That of a name.
fn named<'a>(inputs: &'a [Repeated<'a>], name: &str) -> Option<&'a Repeated<'a>> {
    for input in inputs {
        if input.0 == name {
            return Some(input);
        }
    }
    None
}

impl<'a> Inputs for RepeatingInputs<'a> {
    ghost use Rattle.std.specs.Prelude.{None};

    type Source = RepeatedSource<'a>;

    ghost state = { λ inputs. record {
      files = None;
      open_sources = inputs.held;
      given = inputs.given;
      faults = inputs.faults;
      never_fails = ⊥;
    } };

    fn open(&mut self, alloc: Global, name: &str) -> Result<RepeatedSource<'a>, OpenFault> {
        let Some((_, octets, again)) = named(self.inputs, name) else {
            return Err(OpenFault::Missing);
        };
        let Ok(octets) = Vec::from_slice(alloc, *octets) else {
            return Err(OpenFault::OutOfMemory);
        };
        self.held = self.held.saturating_add(1);
        self.given = self.given.saturating_add(1);
        Ok(RepeatedSource {
            order: self.order,
            reads: 0,
            octets,
            at: 0,
            again: *again,
            faults: 0,
        })
    }

    fn close(&mut self, source: RepeatedSource<'a>) {
        self.held = self.held.saturating_sub(1);
        if source.faults > 0 {
            self.faults = self.faults.saturating_add(1);
        }
    }
}
