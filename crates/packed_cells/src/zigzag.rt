//! Whole numbers as natural ones: 0, -1, 1, -2, ..

ghost use Rattle.std.specs.Prelude.{◌≡◌};
ghost use Rattle.packed_cells.specs.Packed.{unzigzag, zigzag};

pub(crate) fn zigzag(n: i128) -> u128
    ensures { result ≡ zigzag n }
{
    if n >= 0 {
        (n as u128) * 2
    } else {
        (-(n + 1) as u128) * 2 + 1
    }
}

pub(crate) fn unzigzag(n: u128) -> i128
    ensures { result ≡ unzigzag n }
{
    let half = (n / 2) as i128;
    if n % 2 == 0 { half } else { -half - 1 }
}

/// The same in 64 bits.
#[inline(always)]
pub(crate) fn zigzag_word(n: i64) -> u64
    ensures { result ≡ zigzag n }
{
    if n >= 0 {
        (n as u64) * 2
    } else {
        (-(n + 1) as u64) * 2 + 1
    }
}

/// Back.
#[inline(always)]
pub(crate) fn unzigzag_word(n: u64) -> i64
    ensures { result ≡ unzigzag n }
{
    let half = (n / 2) as i64;
    if n % 2 == 0 { half } else { -half - 1 }
}
