//! Division by a total that stays the same, by one product with its reciprocal.

ghost use Rattle.std.specs.Prelude.{◌≡◌, ◌+◌, ◌*◌, ◌/◌, ◌%◌, ◌^◌, ◌<◌, ◌≤◌};
ghost use Rattle.prta_mass.specs.Unit.{unit};

/// A total to divide sums of weighted chances by.
///
/// A division of 128 bits is a call of a library. In its place stands a product with the reciprocal of the total, whose
/// upper bits are the quotient or one less. Totals below 4 have no reciprocal of 64 bits; their sums fit 64 bits.
#[derive(Clone, Copy, Debug)]
pub struct Divisor {
    /// The total.
    pub total: u64,
    right: u32,
    reciprocal: u64,
    ghost some: { 0 < total },
    ghost bounded: { total < 2 ^ 62 },
    ghost small: { right < 60 },
    ghost four: { 4 ≤ total → 4 * 2 ^ right ≤ total },
    ghost eight: { total < 8 * 2 ^ right },
    ghost reciprocal_is: { 4 ≤ total → reciprocal ≡ 2 ^ 65 * 2 ^ right / total },
}

// The exponent and the power of two that is at most a quarter of the total, and above an eighth.
fn level(total: u64) -> (u32, u64)
    requires four { 4 ≤ total }
    requires bounded { total < 2 ^ 62 }
    ensures power { result.1 ≡ 2 ^ result.0 }
    ensures four { 4 * result.1 ≤ total }
    ensures eight { total < 8 * result.1 }
    ensures small { result.0 < 60 }
{
    let mut power: u64 = 1;
    for right in 0..60 {
        if total < 8 * power {
            return (right, power);
        }
        power *= 2;
    }
    unreachable!()
}

impl Divisor {
    /// The divisor by this total.
    pub fn new(total: u64) -> Divisor
        requires some { 0 < total }
        requires bounded { total < 2 ^ 62 }
        ensures { result.total ≡ total }
    {
        if total < 4 {
            return Divisor {
                total,
                right: 0,
                reciprocal: 0,
            };
        }
        let (right, power) = level(total);
        let reciprocal = (0x2_0000_0000_0000_0000u128 * power as u128 / total as u128) as u64;
        Divisor {
            total,
            right,
            reciprocal,
        }
    }

    // The quotient, or one less.
    #[inline(always)]
    fn guess(self, sum: u128) -> u64
        requires four { 4 ≤ self.total }
        requires within { sum ≤ self.total * unit }
        ensures low { result * self.total ≤ sum }
        ensures high { sum < (result + 2) * self.total }
    {
        let top = (sum >> self.right) as u64;
        ((top as u128 * self.reciprocal as u128) >> 65) as u64
    }

    /// The quotient of a sum of chances, each with its weight, by the total, and the remainder.
    #[inline(always)]
    pub fn divide(self, sum: u128) -> (u64, u64)
        requires { sum ≤ self.total * unit }
        ensures quotient { result.0 ≡ sum / self.total }
        ensures rest { result.1 ≡ sum % self.total }
    {
        if self.total < 4 {
            return (sum as u64 / self.total, sum as u64 % self.total);
        }
        let quotient = self.guess(sum);
        let rest = (sum - quotient as u128 * self.total as u128) as u64;
        if rest >= self.total {
            (quotient + 1, rest - self.total)
        } else {
            (quotient, rest)
        }
    }
}
