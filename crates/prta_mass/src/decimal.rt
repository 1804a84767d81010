//! Chances as decimals of twelve places, rounded down or up.

ghost use Rattle.std.specs.Prelude.{◌≡◌, ◌+◌, ◌/◌, ◌%◌, ◌<◌, ◌≤◌};
ghost use Rattle.prta_mass.specs.Unit.{unit};
ghost use Rattle.prta_mass.specs.Decimal.{decimal_text, decimal_below, decimal_above};

use crate::unit::UNIT;

const PLACES: u128 = 1_000_000_000_000;

/// Writes `u / UNIT` rounded down to 12 decimals: a digit, a point and twelve digits.
pub fn decimal_down(u: u64, text: &mut [u8; 14])
    requires { u ≤ unit }
    ensures { text.new ≡ decimal_below u }
{
    let scaled = u as u128 * PLACES;
    write_decimal((scaled / UNIT as u128) as u64, text);
}

/// Writes `u / UNIT` rounded up to 12 decimals: a digit, a point and twelve digits.
pub fn decimal_up(u: u64, text: &mut [u8; 14])
    requires { u ≤ unit }
    ensures { text.new ≡ decimal_above u }
{
    let scaled = u as u128 * PLACES;
    write_decimal(scaled.div_ceil(UNIT as u128) as u64, text);
}

// Writes a number of units of 10^-12.
fn write_decimal(n: u64, text: &mut [u8; 14])
    ensures { text.new ≡ decimal_text n }
{
    *text = [
        digit(n, 1_000_000_000_000),
        b'.',
        digit(n, 100_000_000_000),
        digit(n, 10_000_000_000),
        digit(n, 1_000_000_000),
        digit(n, 100_000_000),
        digit(n, 10_000_000),
        digit(n, 1_000_000),
        digit(n, 100_000),
        digit(n, 10_000),
        digit(n, 1_000),
        digit(n, 100),
        digit(n, 10),
        digit(n, 1),
    ];
}

// The digit of n at the place of this power of ten.
fn digit(n: u64, power: u64) -> u8
    requires { 0 < power }
    ensures { result ≡ 48 + n / power % 10 }
{
    b'0' + (n / power % 10) as u8
}
