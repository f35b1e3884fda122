//! The line that is shown of a load.

ghost use Rattle.std.specs.Prelude.{◌≡◌, Some};
ghost use Rattle.load_progress.specs.Throughput.{rate_text, tenths_a_second, throughput_text};

use std::fmt;

/// How many came in how many milliseconds. It is printed with how many a second that is.
#[derive(Clone, Copy, Debug)]
pub struct Rate {
    pub count: u64,
    pub millis: u64,
}

/// How many a second so many are in so many milliseconds, in tenths.
fn tenths_a_second(count: u64, millis: u64) -> u128
    ensures { result ≡ tenths_a_second count millis }
{
    u128::from(count) * 10_000 / u128::from(millis.max(1))
}

impl fmt::Display for Rate {
    ghost output = { λ rate. Some (rate_text rate.count rate.millis) };

    fn fmt<W: fmt::Write>(&self, f: &mut fmt::Formatter<W>) -> fmt::Result {
        let count = self.count;
        let tenths = tenths_a_second(count, self.millis);
        let (whole, tenth) = (tenths / 10, tenths % 10);
        write!(f, "{count} ({whole}.{tenth} a second)")
    }
}

/// The packets that links have sent, and the fills that were handed in, where they are known.
#[derive(Clone, Copy, Debug)]
pub struct Throughput {
    pub packets: Rate,
    pub fills: Option<Rate>,
}

impl fmt::Display for Throughput {
    ghost output = { λ t. Some (throughput_text t.packets t.fills) };

    fn fmt<W: fmt::Write>(&self, f: &mut fmt::Formatter<W>) -> fmt::Result {
        let packets = self.packets;
        match self.fills {
            None => write!(f, "packets {packets}"),
            Some(fills) => write!(f, "packets {packets}, fills {fills}"),
        }
    }
}
