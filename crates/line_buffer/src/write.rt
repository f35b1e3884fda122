//! Writes all of a text.

ghost use Rattle.line_buffer.specs.Printed.{WritesText};

use outer_traits::fault::Failed;
use outer_traits::sink::Sink;

/// Appends all of a text, or where a write fails or takes nothing a prefix of it. The count of faults rises exactly there.
pub fn write_all<K: Sink>(sink: &mut K, text: &[u8]) -> Result<(), Failed>
    ensures { WritesText result (K.state sink.old) (K.state sink.new) text.now }
{
    let mut at = 0;
    while at < text.len() {
        let (_, rest) = text.split_at(at);
        match sink.write(rest) {
            Ok(0) => return Err(Failed),
            Ok(n) => at += n,
            Err(fault) => return Err(fault),
        }
    }
    Ok(())
}
