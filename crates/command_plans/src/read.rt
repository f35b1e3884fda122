//! Reads an input, and names what went wrong.

ghost use Rattle.std.specs.Prelude.{◌≡◌, ◌≤◌, IfOk, IfErr, ◌⊎◌, vec_len};
ghost use Rattle.refusals.specs.Limits.{limit_of};
ghost use Rattle.outer_traits.specs.Whole.{IsInput};
ghost use Rattle.command_plans.specs.Inputs.{IsFaultRefusal, WasRead, input_plan};
ghost use Rattle.command_plans.specs.Reading.{IsInputUnread, IsOpeningFault};

use arch_types::octets::Octets;
use outer_traits::fault::OpenFault;
use outer_traits::inputs::Inputs;
use outer_traits::whole::{ReadFault, read_input};
use refusals::{Refusal, Which};
use std::alloc::Global;

/// The octets of a named input, which may be as many as the quantity's limit. The source is closed whatever comes. The count of faults rises
/// exactly where the answer is `ReadFault`.
pub fn read_limited<I: Inputs>(
    alloc: Global,
    inputs: &mut I,
    name: &str,
    which: Which,
) -> Result<Vec<u8>, Refusal>
    // It took a way through its plan, and used the inputs as far as that went.
    ensures read { IfOk result (λ octets.
        WasRead (input_plan (I.state inputs.old).files which (λ read. read) name.now) octets.items 1
        (I.state inputs.old) (I.state inputs.new)) }
    ensures whole { IfOk result (λ octets. IsInput (I.state inputs.old).files name.now octets.items) }
    ensures short { IfOk result (λ octets. vec_len octets ≤ limit_of which) }
    ensures unread { IfErr result (IsInputUnread (I.state inputs.old).files which name.now (I.state inputs.old)
        (I.state inputs.new)) }
{
    match read_input(alloc, inputs, name, which.limit() as usize) {
        Ok(octets) => Ok(octets),
        Err(fault) => Err(refusal_of(alloc, fault, name, which)),
    }
}

/// The refusal of an input by the fault of reading it.
pub fn refusal_of(alloc: Global, fault: ReadFault, name: &str, which: Which) -> Refusal
    ensures { IsFaultRefusal name.now which fault result }
{
    match fault {
        ReadFault::Missing => missing(alloc, name),
        ReadFault::Failed => Refusal::ReadFault,
        ReadFault::TooLong => Refusal::Limit {
            which,
            number: which.limit(),
        },
        ReadFault::OutOfMemory => Refusal::OutOfMemory,
    }
}

/// The refusal of an input that wasn't opened.
pub fn refusal_of_opening(alloc: Global, fault: OpenFault, name: &str) -> Refusal
    ensures { IsOpeningFault name.now fault result }
{
    match fault {
        OpenFault::Missing => missing(alloc, name),
        OpenFault::Failed => Refusal::ReadFault,
        OpenFault::OutOfMemory => Refusal::OutOfMemory,
    }
}

/// The refusal of a name that no input has.
fn missing(alloc: Global, name: &str) -> Refusal
    ensures { (result ≡ Refusal.Missing name.now) ⊎ (result ≡ Refusal.OutOfMemory) }
{
    match Octets::from_slice(alloc, name.as_bytes()) {
        Ok(name) => Refusal::Missing { name },
        Err(_) => Refusal::OutOfMemory,
    }
}
