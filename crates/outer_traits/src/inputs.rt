//! Inputs by name.

ghost use Rattle.std.specs.Prelude.{◌≡◌, ◌≤◌, ◌<◌, IfOk, OnOk, OnErr, IfSome, IsNone, IsErrOf, ◌↔◌};
ghost use Rattle.std.specs.FinMap.{get};
ghost use Rattle.outer_traits.specs.Outside.{HasRisen, IsLeftAtFirst, OpeningCounted, Stays};
ghost use Rattle.outer_traits.specs.States.{InputsState, GaveOne, GaveNone, ClosedOne};

use crate::fault::OpenFault;
use crate::source::Source;
use std::alloc::Global;

/// Sources that are opened by their names. Each that was opened is to be closed again, so that its faults are counted.
pub trait Inputs {
    type Source: Source + Drop;

    /// What is known of them: their files, how many sources are open and were given, how often they have failed, and whether they never do.
    ghost state: { Self → InputsState };

    /// A source at the start of the named octets. The count of faults rises exactly where the answer is `Failed`.
    fn open(&mut self, alloc: Global, name: &str) -> Result<Self::Source, OpenFault>
        ensures found { IfOk result (λ source.
            IsLeftAtFirst (state self.old).files name.now (Self.Source.state source).left) }
        ensures fresh { IfOk result (λ source. (Self.Source.state source).faults ≡ 0) }
        ensures missing { IfSome (state self.old).files (λ all. IsErrOf result OpenFault.Missing ↔
            IsNone (get all name.now)) }
        ensures same { (state self.new).files ≡ (state self.old).files }
        ensures later { (state self.old).faults ≤ (state self.new).faults }
        ensures gave { OnOk result (GaveOne (state self.old) (state self.new)) }
        ensures gave_none { OnErr result (GaveNone (state self.old) (state self.new)) }
        ensures counted { OpeningCounted result (state self.old).faults (state self.new).faults }
        ensures reliable { (state self.old).never_fails → (state self.new).never_fails ×
            Stays (state self.old).faults (state self.new).faults }
        ensures reliable_source { (state self.old).never_fails →
            IfOk result (λ source. (Self.Source.state source).never_fails) };

    /// Takes a source back. The count of faults rises exactly where the source's had.
    fn close(&mut self, source: Self::Source)
        ensures same { (state self.new).files ≡ (state self.old).files }
        ensures later { (state self.old).faults ≤ (state self.new).faults }
        ensures closed { ClosedOne (state self.old) (state self.new) }
        ensures kept { (Self.Source.state source).faults ≡ 0 → Stays (state self.old).faults (state self.new).faults }
        ensures risen { 0 < (Self.Source.state source).faults →
            HasRisen (state self.old).faults (state self.new).faults }
        ensures reliable { (state self.old).never_fails → (Self.Source.state source).faults ≡ 0 →
            (state self.new).never_fails × Stays (state self.old).faults (state self.new).faults };
}
