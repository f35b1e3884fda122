//! Keys as an index holds them.

ghost use Rattle.std.specs.Prelude.{◌≡◌, Some, int_lt, refl};
ghost use Rattle.std.specs.Ordering.{eq_by_cmp};
ghost use Rattle.std.specs.Cmp.{eq_by_cmp_equiv, partial_equiv_from_equiv, partial_order_from_agreeing_total};
ghost use Rattle.arch_types.specs.Order.{key_cmp};
ghost use Rattle.arch_types.proofs.Ranks.{key_cmp_total};
ghost use Rattle.yarch_table.specs.PackedKey.{time_past_least};

use arch_types::key::Key;
use std::cmp::Ordering;
use std::marker::Model;

/// The values of a word.
const WORD: u64 = 1 << 32;

/// A key in three words, so that it and a place of 32 bits have no octet between them: with a time of 64 bits they had eight.
#[derive(Clone, Copy)]
pub(crate) struct PackedKey {
    /// How far the time is past the least one, in words.
    high: u32,
    /// And the rest.
    low: u32,
    seq: u32,
}

impl Model for PackedKey {
    ghost use Rattle.std.specs.Prelude.{ℕ, ◌<◌, ◌+◌, ◌*◌, ◌/◌, ◌%◌, ◌^◌};
    ghost use Rattle.arch_types.specs.declared.key.Key.{Key};
    ghost use Rattle.yarch_table.specs.PackedKey.{past_least, time_past_least, high_back, low_back};

    ghost Value = { Key };

    ghost view = { λ k. record { time = time_past_least (k.high * 2 ^ 32 + k.low); seq = k.seq } };

    ghost invariant = { λ k. k.low < 2 ^ 32 };

    ghost inverse = { λ key. record {
      high = past_least key.time / 2 ^ 32;
      low = past_least key.time % 2 ^ 32;
      seq = key.seq;
    } };

    ghost inverse_ok = { λ k small i. record {
      high = high_back k.high k.low small i;
      low = low_back k.high k.low small i;
      seq = k.seq;
    } };
}

impl PackedKey {
    /// A key.
    pub(crate) fn of(key: Key) -> Self
        ensures { result ≡ key }
    {
        let past = key.time.abs_diff(i64::MIN);
        PackedKey {
            high: (past / WORD) as u32,
            low: (past % WORD) as u32,
            seq: key.seq,
        }
    }

    /// How far the time is past the least one.
    fn past_least(&self) -> u64
        ensures { time_past_least result ≡ self.now.time }
    {
        self.high as u64 * WORD + self.low as u64
    }

    /// Whether the time is below another, in milliseconds.
    pub(crate) fn is_before(&self, end: i64) -> bool
        ensures { result ≡ int_lt self.now.time end }
    {
        self.past_least() < end.abs_diff(i64::MIN)
    }
}

impl PartialEq for PackedKey {
    ghost eq = { eq_by_cmp key_cmp };

    ghost laws = { partial_equiv_from_equiv (eq_by_cmp_equiv key_cmp_total) };

    fn eq(&self, other: &PackedKey) -> bool {
        self.cmp(other).is_eq()
    }
}

impl Eq for PackedKey {
    ghost laws = { eq_by_cmp_equiv key_cmp_total };
}

impl PartialOrd for PackedKey {
    ghost partial_cmp = { λ a b. Some (key_cmp a b) };

    ghost laws = { partial_order_from_agreeing_total key_cmp key_cmp_total (λ a b. refl) (λ a b. refl) };

    fn partial_cmp(&self, other: &PackedKey) -> Option<Ordering> {
        Some(self.cmp(other))
    }
}

impl Ord for PackedKey {
    ghost cmp = { key_cmp };

    ghost total = { key_cmp_total };

    ghost matches_partial_cmp = { λ a b. refl };

    ghost matches_eq = { λ a b. refl };

    fn cmp(&self, other: &PackedKey) -> Ordering {
        self.past_least()
            .cmp(&other.past_least())
            .then(self.seq.cmp(&other.seq))
    }
}
