//! The raw numbers of a parameter.

ghost use Rattle.std.specs.Prelude.{◌≡◌, ◌^◌, ◌≤◌, ◌↔◌, pos, IsTrue};
ghost use Rattle.calibration.specs.Admitted.{IsInWidth, IsSigned, IsUnsigned};

use mdb_model::{Coding, Parameter};

/// A power of two.
fn power(exponent: u8) -> i128
    requires { exponent ≤ 64 }
    ensures { result ≡ pos (2 ^ exponent) }
{
    1_i128 << exponent
}

fn is_unsigned(bits: u8, raw: i128) -> bool
    requires { bits ≤ 64 }
    ensures { IsTrue result ↔ IsUnsigned bits raw }
{
    0 <= raw && raw < power(bits)
}

fn is_signed(bits: u8, raw: i128) -> bool
    requires some { 1 ≤ bits }
    requires few { bits ≤ 64 }
    ensures { IsTrue result ↔ IsSigned bits raw }
{
    let half = power(bits - 1);
    -half <= raw && raw < half
}

/// The raw number is one of the parameter's coding and bits.
pub fn is_in_width(parameter: &Parameter, raw: i128) -> bool
    requires some { 1 ≤ parameter.now.bits }
    requires few { parameter.now.bits ≤ 64 }
    ensures { IsTrue result ↔ IsInWidth parameter.now.coding parameter.now.bits raw }
{
    match parameter.coding {
        Coding::Uint | Coding::UintLe => is_unsigned(parameter.bits, raw),
        Coding::Int | Coding::IntLe => is_signed(parameter.bits, raw),
    }
}
