//! How a command ends that printed a text.

ghost use Rattle.command_runs.specs.Finishing.{IsFinished};

use line_buffer::LineBuffer;
use outer_traits::sink::Sink;
use refusals::Refusal;

/// Writes all that is buffered, and says how a command ends that prints nothing more.
pub fn finish<K: Sink>(line_buffer: LineBuffer, sink: &mut K) -> Option<Refusal>
    ensures { IsFinished result (K.state sink.old) (K.state sink.new) line_buffer }
{
    match line_buffer.finish(sink) {
        Ok(()) => None,
        Err(_) => Some(Refusal::WriteFault),
    }
}
