//! A dump that is received now.

ghost use Rattle.std.specs.Prelude.{◌≡◌, ◌+◌, ◌^◌, ◌<◌, ◌≤◌, [], IfOk, IfErr};
ghost use Rattle.std.specs.Result.{result_err};
ghost use Rattle.outer_traits.specs.Outside.{Stays};
ghost use Rattle.outer_traits.specs.Whole.{IsInputFault, ReadingCounted, ReadingGiven};
ghost use Rattle.command_plans.specs.Ledger.{UsedClock};
ghost use Rattle.command_plans.specs.Reading.{IsInputUnread};
ghost use Rattle.command_runs.specs.DumpRest.{dump_limit, ending_of};
ghost use Rattle.dump_commands.specs.ReadDump.{IsDumpReceived, IsInputReceived};

use command_plans::read::refusal_of;
use command_runs::dump_rest::bad_packet;
use dump_lines::receiving::{DumpRows, Received, receive};
use dump_pieces::reading::DumpEnd;
use line_buffer::LineBuffer;
use outer_traits::clock::Clock;
use outer_traits::fault::OpenFault;
use outer_traits::inputs::Inputs;
use outer_traits::whole::ReadFault;
use refusals::{BadKind, Refusal, Which};
use space_packet::dump::Why;
use std::alloc::Global;

/// A dump that was received, and room for a piece of text.
#[derive(Drop)]
pub struct ScanInput<R> {
    pub received: Received<R>,
    pub line_buffer: LineBuffer,
}

/// Receives the named dump piece by piece, of which nothing is kept but what is wanted of its rows. It comes when it
/// was read to its end.
pub fn read_scan_input<I: Inputs, C: Clock, R: DumpRows>(
    alloc: Global,
    inputs: &mut I,
    name: &str,
    clock: &mut C,
) -> Result<ScanInput<R>, Refusal>
    // The dump was read by its plan, and received at the moment that the clock tells.
    ensures read { IfOk result (λ scan_input. IsDumpReceived (I.state inputs.old).files (C.state clock.old).next
        name.now (I.state inputs.old) (I.state inputs.new) (R.keeps scan_input.received.rows)
        scan_input.received.end) }
    ensures unread { IfErr result (IsInputUnread (I.state inputs.old).files Which.DumpOctets name.now
        (I.state inputs.old) (I.state inputs.new)) }

    ensures empty { IfOk result (λ scan_input. scan_input.line_buffer ≡ []) }
    ensures clock { UsedClock (C.state clock.old) (C.state clock.new) }
{
    let moment = clock.now();
    let received = match receive_input(alloc, inputs, name, moment) {
        Ok(received) => received,
        Err(fault) => return Err(refusal_of(alloc, fault, name, Which::DumpOctets)),
    };
    match LineBuffer::new(alloc) {
        Ok(line_buffer) => Ok(ScanInput {
            received,
            line_buffer,
        }),
        Err(_) => Err(Refusal::OutOfMemory),
    }
}

/// Receives the named dump. It is opened once, and its source is closed whatever comes. The count of faults rises
/// exactly where the answer is `Failed`.
fn receive_input<I: Inputs, R: DumpRows>(
    alloc: Global,
    inputs: &mut I,
    name: &str,
    moment: i64,
) -> Result<Received<R>, ReadFault>
    ensures received { IfOk result (λ received. IsInputReceived (I.state inputs.old).files name.now
        (R.keeps received.rows moment) received.end) }
    ensures fault { IfErr result (IsInputFault (I.state inputs.old).files name.now dump_limit
        (I.state inputs.old).faults (I.state inputs.new).faults) }
    ensures same { (I.state inputs.new).files ≡ (I.state inputs.old).files }
    ensures closed { (I.state inputs.old).open_sources + 1 < 2 ^ 64 →
        (I.state inputs.new).open_sources ≡ (I.state inputs.old).open_sources }
    ensures gave { ReadingGiven result (I.state inputs.old).given (I.state inputs.new).given }
    ensures counted { ReadingCounted result (I.state inputs.old).faults (I.state inputs.new).faults }
    ensures later { (I.state inputs.old).faults ≤ (I.state inputs.new).faults }
    ensures reliable { (I.state inputs.old).never_fails → (I.state inputs.new).never_fails ×
        Stays (I.state inputs.old).faults (I.state inputs.new).faults }
{
    match inputs.open(alloc, name) {
        Ok(opened) => {
            let mut source = opened;
            let limit = Which::DumpOctets.limit() as usize;
            let received = receive(alloc, &mut source, limit, moment);
            inputs.close(source);
            received
        }
        Err(OpenFault::Missing) => Err(ReadFault::Missing),
        Err(OpenFault::Failed) => Err(ReadFault::Failed),
        Err(OpenFault::OutOfMemory) => Err(ReadFault::OutOfMemory),
    }
}

/// How a command ends that printed what a dump has before its end.
pub fn ended(end: DumpEnd) -> Result<(), Refusal>
    ensures { result_err result ≡ ending_of end.why end.at }
{
    match end.why {
        Why::End => Ok(()),
        Why::Version => Err(bad_packet(end.at, BadKind::Version)),
        Why::Truncated => Err(bad_packet(end.at, BadKind::Truncated)),
    }
}
