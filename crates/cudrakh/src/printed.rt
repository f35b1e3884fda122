//! What standard error says of a refusal, fit for a terminal.

use refusals::{FaultText, Refusal};
use std::fmt::{self, Write};

/// The text of a refusal. A control character of a name that it quotes is printed by its number, so that a terminal does nothing by it.
#[derive(Debug, Drop)]
pub struct PrintedFault<'a>(pub &'a Refusal);

impl<'a> fmt::Display for PrintedFault<'a> {
    fn fmt<W: fmt::Write>(&self, f: &mut fmt::Formatter<W>) -> fmt::Result {
        let mut escaping = Escaping { out: f };
        write!(escaping, "{}", FaultText(self.0))
    }
}

/// Passes text on, with its control characters by their numbers.
#[derive(Drop)]
struct Escaping<'a, W> {
    out: &'a mut W,
}

impl<'a, W: fmt::Write> fmt::Write for Escaping<'a, W> {
    fn write_str(&mut self, text: &str) -> fmt::Result {
        for c in text.chars() {
            if c.is_control() {
                write!(self.out, "\\u{{{:x}}}", u32::from(c))?;
            } else {
                self.out.write_char(c)?;
            }
        }
        Ok(())
    }
}
