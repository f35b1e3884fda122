//! Counts of packets.

ghost use Rattle.std.specs.Prelude.{◌≡◌, ◌+◌, ◌<◌, ◌^◌};
ghost use Rattle.dump_lines.specs.Counting.{counts_with};

/// What became of a packet.
#[derive(Clone, Copy, Debug, PartialEq, Eq)]
pub enum PacketOutcome {
    Idle,
    New,
    Duplicate,
}

/// How many packets there were, and what became of them.
#[derive(Clone, Copy, Debug, Default)]
pub struct Counts {
    pub packets: u64,
    /// The packets that are rows.
    pub rows: u64,
    pub duplicates: u64,
    pub idle: u64,
}

impl Counts {
    /// Counts one more packet.
    pub fn add(&mut self, added: PacketOutcome)
        requires rows { self.old.rows + 1 < 2 ^ 64 }
        requires packets { self.old.packets + 1 < 2 ^ 64 }
        requires duplicates { self.old.duplicates + 1 < 2 ^ 64 }
        requires idle { self.old.idle + 1 < 2 ^ 64 }
        ensures { self.new ≡ counts_with self.old added }
    {
        self.packets += 1;
        match added {
            PacketOutcome::Idle => self.idle += 1,
            PacketOutcome::New => self.rows += 1,
            PacketOutcome::Duplicate => self.duplicates += 1,
        }
    }
}
