//! Numbers that are read.

ghost use Rattle.std.specs.Prelude.{◌≡◌, ◌+◌, ◌<◌, ◌≤◌, ◌&&◌, ◌||◌, true, min, not, nat_eq, nat_lt, length, slice_index, IfSome};
ghost use Rattle.std.specs.Char.{is_ascii_digit};
ghost use Rattle.std.specs.List.{list_all};
ghost use Rattle.prta_number.specs.Decimal.{value_of, is_decimal, number_within};

/// The number that the text writes in decimal digits without a sign and without a leading zero (`0` alone is a
/// number), where it writes one from `low` to `high`.
pub fn number_within(text: &[u8], low: u64, high: u64) -> Option<u64>
    ensures number { result ≡ number_within low high text.now }
    ensures from { IfSome result (λ number. low ≤ number) }
    ensures to { IfSome result (λ number. number ≤ high) }
{
    if !is_decimal(text) {
        return None;
    }
    let value = capped_value(text, high);
    if low as u128 <= value && value <= high as u128 {
        Some(value as u64)
    } else {
        None
    }
}

// Whether all bytes are digits, at least one, of which the first is no 0 unless it stands alone.
fn is_decimal(text: &[u8]) -> bool
    ensures { result ≡ is_decimal text.now }
{
    are_digits(text) && begins_well(text)
}

fn are_digits(text: &[u8]) -> bool
    ensures { result ≡ list_all is_ascii_digit text.now }
{
    text.iter().all(|byte| byte.is_ascii_digit())
}

fn begins_well(text: &[u8]) -> bool
    ensures { result ≡ (nat_lt 0 (length text.now) && (nat_eq (length text.now) 1 || not (nat_eq (slice_index text.now 0) 48))) }
{
    !text.is_empty() && (text.len() == 1 || text[0] != b'0')
}

// The number that digits write, or one above `high` where it is larger than that.
fn capped_value(digits: &[u8], high: u64) -> u128
    requires digits { list_all is_ascii_digit digits.now ≡ true }
    ensures { result ≡ min (value_of digits.now) (high + 1) }
{
    let mut value: u128 = 0;
    for digit in digits {
        value = (value * 10 + (digit - b'0') as u128).min(high as u128 + 1);
    }
    value
}
