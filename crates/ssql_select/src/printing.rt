//! Octets on their way to a sink.

ghost use Rattle.std.specs.Prelude.{◌++◌};
ghost use Rattle.line_buffer.specs.LineRoom.{HasLineRoom};
ghost use Rattle.line_buffer.specs.Printed.{PrintsText};

use line_buffer::{LineBuffer, write_all};
use outer_traits::print_fault::PrintFault;
use outer_traits::sink::Sink;

/// The most octets of a text that goes through the buffer: `longest_line` of line_buffer, for which it has room.
const LONG: usize = 512;

/// Prints octets, which may still be buffered.
pub fn print_octets<K: Sink>(
    octets: &[u8],
    line_buffer: &mut LineBuffer,
    sink: &mut K,
) -> Result<(), PrintFault>
    requires room { HasLineRoom line_buffer.old }
    ensures { PrintsText result (K.state sink.old) (K.state sink.new) (line_buffer.old ++ octets.now) line_buffer.new }
{
    if octets.len() <= LONG {
        line_buffer.put(octets);
        line_buffer.flush_if_full(sink)?;
        return Ok(());
    }
    line_buffer.flush(sink)?;
    write_all(sink, octets)?;
    Ok(())
}
