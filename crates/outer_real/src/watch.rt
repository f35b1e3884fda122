//! What is shown of a load that goes on.

use load_progress::{Rate, Throughput, WatchedJobs, fills_behind, packets_behind};
use outer_traits::gate::Gate;
use std::rt::Clock as SystemClock;
use std::sync::atomic::{AtomicU64, Ordering};
use std::time::Instant;

/// In place of the second in which the line was written last, while it is written, and once no more of them are.
const NONE_IS_DUE: u64 = u64::MAX;

/// What a terminal shows of a load: how many packets and fills there were so far, and how many a second that is, on a
/// line that is written again over itself once a second. It is the gate of the load's jobs. A terminal that stands
/// still holds one of them there, outside of any turn; the others pass, and show nothing meanwhile.
///
/// Time begins with the first pass, since the archive is opened before it. In the first two seconds nothing is shown.
#[derive(Drop)]
pub struct Watch<'a, R> {
    rt: &'a R,
    jobs: WatchedJobs,
    /// None where nobody watches.
    begun: Option<Instant>,
    /// The milliseconds from then to the first pass; 0 before it.
    first: AtomicU64,
    packets: AtomicU64,
    fills: AtomicU64,
    /// The second since the first pass in which the line was written last.
    shown: AtomicU64,
}

impl<'a, R: SystemClock> Watch<'a, R> {
    /// Of a load with these jobs, or of no load.
    pub fn new(rt: &'a R, jobs: Option<WatchedJobs>) -> Self {
        let begun = match jobs {
            Some(_) => Instant::now(rt).ok(),
            None => None,
        };
        Watch {
            rt,
            jobs: jobs.unwrap_or(WatchedJobs {
                links: 0,
                asks_nothing: false,
            }),
            begun,
            first: AtomicU64::new(0),
            packets: AtomicU64::new(0),
            fills: AtomicU64::new(0),
            shown: AtomicU64::new(1),
        }
    }

    /// The milliseconds since the first pass, where somebody watches and the clock can be read.
    fn millis(&self) -> Option<u64> {
        let begun = self.begun?;
        let since = begun.elapsed(self.rt).ok()?;
        let millis = since.as_millis().min(u64::MAX as u128) as u64;
        let now = millis.max(1);
        match self
            .first
            .compare_exchange(0, now, Ordering::SeqCst, Ordering::SeqCst)
        {
            Ok(_) => Some(0),
            Err(first) => Some(now.saturating_sub(first)),
        }
    }

    /// Whether the line is to be written in this second: by the first that comes to it. Until it has, nobody else does.
    fn is_due(&self, second: u64) -> bool {
        let shown = self.shown.load(Ordering::SeqCst);
        second > shown
            && self
                .shown
                .compare_exchange(shown, NONE_IS_DUE, Ordering::SeqCst, Ordering::SeqCst)
                .is_ok()
    }

    /// What there was in so many milliseconds.
    fn throughput(&self, millis: u64) -> Throughput {
        let packets = Rate {
            count: self.packets.load(Ordering::SeqCst),
            millis,
        };
        let fills = Rate {
            count: self.fills.load(Ordering::SeqCst),
            millis,
        };
        Throughput {
            packets,
            fills: self.jobs.asks_nothing.then_some(fills),
        }
    }
}

impl<'a, R: SystemClock + Eprint> Watch<'a, R> {
    /// Writes the line over the one before, where it is due.
    fn show(&self) {
        let Some(millis) = self.millis() else {
            return;
        };
        let second = millis / 1_000;
        if !self.is_due(second) {
            return;
        }
        let throughput = self.throughput(millis);
        let _ = eprint!(self.rt; "\r\x1b[K{throughput}");
        self.shown.store(second, Ordering::SeqCst);
    }

    /// Takes the line away. From then on none is written.
    pub fn end(&self) {
        let shown = self.shown.swap(NONE_IS_DUE, Ordering::SeqCst);
        if shown > 1 && shown < NONE_IS_DUE {
            let _ = eprint!(self.rt; "\r\x1b[K");
        }
    }
}

impl<'a, R: SystemClock + Eprint> Gate for Watch<'a, R> {
    fn pass(&self, job: u32, turn: u64) {
        let packets = packets_behind(self.jobs, job, turn);
        self.packets.fetch_add(packets, Ordering::SeqCst);
        let fills = fills_behind(self.jobs, job, turn);
        self.fills.fetch_add(fills, Ordering::SeqCst);
        self.show();
    }
}
