//! Inputs in memory.

ghost use Rattle.std.specs.Prelude.{◌≡◌, ◌≤◌, length, drop, MatchOption, None, Some, []};
ghost use Rattle.std.specs.FinMap.{get};
ghost use Rattle.outer_traits.specs.MemInputs.{files_of, HasFile, is_failing_input_call};

use crate::fault::{Failed, OpenFault, raised};
use crate::inputs::Inputs;
use crate::source::Source;
use std::alloc::Global;

/// A named input.
#[derive(Drop)]
pub struct File {
    pub name: String,
    pub octets: Vec<u8>,
}

/// The place of the first file of a name.
fn find_file(files: &[File], name: &str) -> Option<usize>
    ensures { MatchOption result (get (files_of files.now) name.now ≡ None) (HasFile files.now name.now) }
{
    for (i, file) in files.iter().enumerate() {
        if name == file.name.as_str() {
            return Some(i);
        }
    }
    None
}

/// A call that is to fail.
#[derive(Clone, Copy, Debug, PartialEq, Eq)]
pub struct FailingCall {
    /// The number of an opening, from 1.
    pub opening: u64,
    /// 0 for the opening itself, or the number of a read of the source that it gave, from 1.
    pub read: u64,
}

/// Inputs that are held in memory. Of files with one name the first counts.
#[derive(Drop)]
pub struct MemInputs {
    pub files: Vec<File>,
    calls: Vec<FailingCall>,
    /// How many openings were asked for.
    opened: u64,
    /// How many sources are open.
    held: u64,
    /// How many sources were given.
    given: u64,
    faults: u64,
}

/// Whether a call is among those that are to fail.
fn is_listed(calls: &[FailingCall], opening: u64, read: u64) -> bool
    ensures { result ≡ is_failing_input_call calls.now opening read }
{
    calls.contains(&FailingCall { opening, read })
}

/// Octets of an input in memory.
#[derive(Drop)]
pub struct MemSource {
    octets: Vec<u8>,
    at: usize,
    calls: Vec<FailingCall>,
    /// The number of the opening that gave it.
    opening: u64,
    /// How many reads were asked for.
    reads: u64,
    faults: u64,
    ghost within: { at ≤ length octets.items },
}

impl Source for MemSource {
    ghost use Rattle.std.specs.Prelude.{◌≡◌, ◌≤◌, ◌<◌, Some, Ok, drop, [], length, is_err, IfOk, IsErr, OnErr, OnOk};
    ghost use Rattle.outer_traits.specs.MemInputs.{is_failing_input_call};
    ghost use Rattle.outer_traits.specs.Outside.{HasRisen, Reads, Stays, one_more};

    ghost state = { λ source. record {
      left = Some (drop source.at source.octets.items);
      faults = source.faults;
      never_fails = source.calls.items ≡ [];
    } };

    /// The reads that are listed fail, and no others.
    fn read(&mut self, into: &mut [u8]) -> Result<usize, Failed>
        ensures numbered { self.new.reads ≡ one_more self.old.reads }
        ensures listed_fails { is_err result ≡ is_failing_input_call self.old.calls.items self.old.opening self.new.reads }
        ensures same_calls { (self.new.calls ≡ self.old.calls) × (self.new.opening ≡ self.old.opening) }
        ensures count { IfOk result (λ n. n ≤ length into.old) }
        ensures taken { IfOk result (λ n.
            Reads (Some (drop self.old.at self.old.octets.items)) (Some (drop self.new.at self.new.octets.items)) n into.new) }
        ensures end { result ≡ Ok 0 → 0 < length into.old → drop self.old.at self.old.octets.items ≡ [] }
        ensures kept { OnErr result (drop self.new.at self.new.octets.items ≡ drop self.old.at self.old.octets.items) }
        ensures later { self.old.faults ≤ self.new.faults }
        ensures failed { IsErr result → HasRisen self.old.faults self.new.faults }
        ensures no_fault { OnOk result (Stays self.old.faults self.new.faults) }
        ensures reliable { self.old.calls.items ≡ [] → (self.new.calls.items ≡ []) ×
            Stays self.old.faults self.new.faults }
    {
        self.reads = self.reads.saturating_add(1);
        if is_listed(self.calls.as_slice(), self.opening, self.reads) {
            self.faults = raised(self.faults);
            return Err(Failed);
        }
        let n = into.len().min(self.octets.len() - self.at);
        let (_, left) = self.octets.as_slice().split_at(self.at);
        into[..n].copy_from_slice(&left[..n]);
        self.at += n;
        Ok(n)
    }
}

impl MemInputs {
    /// Inputs of which no call is to fail.
    pub fn new(alloc: Global, files: Vec<File>) -> Self
        ensures files { result.files ≡ files }
        ensures no_calls { result.calls.items ≡ [] }
        ensures no_faults { result.faults ≡ 0 }
        ensures none_given { (result.held ≡ 0) × (result.given ≡ 0) }
    {
        MemInputs::failing(files, Vec::new(alloc))
    }

    /// Inputs of which these calls are to fail.
    pub fn failing(files: Vec<File>, calls: Vec<FailingCall>) -> Self
        ensures files { result.files ≡ files }
        ensures calls { result.calls ≡ calls }
        ensures none_made { result.opened ≡ 0 }
        ensures no_faults { result.faults ≡ 0 }
        ensures none_given { (result.held ≡ 0) × (result.given ≡ 0) }
    {
        MemInputs {
            files,
            calls,
            opened: 0,
            held: 0,
            given: 0,
            faults: 0,
        }
    }
}

impl Inputs for MemInputs {
    ghost use Rattle.std.specs.Prelude.{◌≡◌, ◌≤◌, ◌-◌, ◌<◌, ◌↔◌, Some, [], drop, IfOk, IsErrOf, IsNone, IsSome, OnOk, OnErr, true, false};
    ghost use Rattle.std.specs.FinMap.{get};
    ghost use Rattle.outer_traits.specs.MemInputs.{files_of, is_failing_input_call};
    ghost use Rattle.outer_traits.specs.Outside.{IsLeftAtFirst, HasRisen, OpeningCounted, Stays, one_more};

    type Source = MemSource;

    ghost state = { λ inputs. record {
      files = Some (files_of inputs.files.items);
      open_sources = inputs.held;
      given = inputs.given;
      faults = inputs.faults;
      never_fails = inputs.calls.items ≡ [];
    } };

    /// `Missing` where there's no file of the name, and else the openings that are listed fail, and no others.
    fn open(&mut self, alloc: Global, name: &str) -> Result<MemSource, OpenFault>
        ensures numbered { self.new.opened ≡ one_more self.old.opened }
        ensures listed_fails { is_failing_input_call self.old.calls.items self.new.opened 0 ≡ true
            → IsSome (get (files_of self.old.files.items) name.now) → IsErrOf result OpenFault.Failed }
        ensures unlisted_never_fails { is_failing_input_call self.old.calls.items self.new.opened 0 ≡ false →
            IsErrOf result OpenFault.Failed → ⊥ }
        ensures known { IfOk result (λ source.
            (source.opening ≡ self.new.opened) × (source.calls.items ≡ self.old.calls.items)) }
        ensures unread { IfOk result (λ source. source.reads ≡ 0) }
        ensures same_calls { self.new.calls ≡ self.old.calls }
        ensures found { IfOk result (λ source.
            IsLeftAtFirst (Some (files_of self.old.files.items)) name.now (Some (drop source.at source.octets.items))) }
        ensures fresh { IfOk result (λ source. source.faults ≡ 0) }
        ensures missing { IsErrOf result OpenFault.Missing ↔ IsNone (get (files_of self.old.files.items) name.now) }
        ensures same { self.new.files ≡ self.old.files }
        ensures later { self.old.faults ≤ self.new.faults }
        ensures gave { OnOk result ((self.new.held ≡ one_more self.old.held) ×
            (self.new.given ≡ one_more self.old.given)) }
        ensures gave_none { OnErr result ((self.new.held ≡ self.old.held) × (self.new.given ≡ self.old.given)) }
        ensures counted { OpeningCounted result self.old.faults self.new.faults }
        ensures reliable { self.old.calls.items ≡ [] → (self.new.calls.items ≡ []) ×
            Stays self.old.faults self.new.faults }
        ensures reliable_source { self.old.calls.items ≡ [] → IfOk result (λ source. source.calls.items ≡ []) }
    {
        self.opened = self.opened.saturating_add(1);
        let Some(i) = find_file(self.files.as_slice(), name) else {
            return Err(OpenFault::Missing);
        };
        if is_listed(self.calls.as_slice(), self.opened, 0) {
            self.faults = raised(self.faults);
            return Err(OpenFault::Failed);
        }
        let Ok(octets) = Vec::from_slice(alloc, self.files[i].octets.as_slice()) else {
            return Err(OpenFault::OutOfMemory);
        };
        let Ok(calls) = Vec::from_slice(alloc, self.calls.as_slice()) else {
            return Err(OpenFault::OutOfMemory);
        };
        self.held = self.held.saturating_add(1);
        self.given = self.given.saturating_add(1);
        Ok(MemSource {
            octets,
            at: 0,
            calls,
            opening: self.opened,
            reads: 0,
            faults: 0,
        })
    }

    /// No opening is asked for, and the same calls are to fail.
    fn close(&mut self, source: MemSource)
        ensures not_numbered { self.new.opened ≡ self.old.opened }
        ensures same_calls { self.new.calls ≡ self.old.calls }
        ensures same { self.new.files ≡ self.old.files }
        ensures later { self.old.faults ≤ self.new.faults }
        ensures closed { (self.new.held ≡ self.old.held - 1) × (self.new.given ≡ self.old.given) }
        ensures kept { source.faults ≡ 0 → Stays self.old.faults self.new.faults }
        ensures risen { 0 < source.faults → HasRisen self.old.faults self.new.faults }
        ensures reliable { self.old.calls.items ≡ [] → source.faults ≡ 0
            → (self.new.calls.items ≡ []) × Stays self.old.faults self.new.faults }
    {
        self.held = self.held.saturating_sub(1);
        if source.faults > 0 {
            self.faults = raised(self.faults);
        }
    }
}
