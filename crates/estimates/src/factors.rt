// Two products at once: one of the raised readings, and the same of the readings themselves. The first is kept as a weight is, and the second is exact as long as the first is allowed. Nothing overflows on the way,
// since the second is never larger; and a product that is too large, times 0, is 0 again.
ghost use Rattle.std.specs.Prelude.{◌≡◌, ◌≤◌, nat_abs};
ghost use Rattle.estimates.specs.Inside.Held.{Sound};

use algebra::LARGEST_WEIGHT;

#[derive(Clone, Copy)]
pub(crate) struct Both {
    pub(crate) most: u64,
    pub(crate) value: i64,
    ghost sound: { Sound most value },
}

impl Both {
    ghost use Rattle.estimates.specs.Inside.Parts.{Times, TimesPower};

    // A number that no reading changes.
    pub(crate) fn of(number: i64) -> Both
        ensures most { result.most ≡ nat_abs number }
        ensures value { result.value ≡ number }
    {
        Both {
            most: number.unsigned_abs(),
            value: number,
        }
    }

    // Each multiplied by its own. Where the first is too large the second stays as it was, and says nothing.
    pub(crate) fn times(self, other: Both) -> Both
        ensures { Times self other result }
    {
        let product = weights::product(self.most, other.most);
        if product > LARGEST_WEIGHT {
            return Both {
                most: product,
                value: self.value,
            };
        }
        let value = self.value * other.value;
        Both {
            most: product,
            value,
        }
    }

    // The same e times.
    pub(crate) fn times_power(self, factor: Both, e: u64) -> Both
        requires reading_bound { nat_abs factor.value ≤ factor.most }
        ensures { TimesPower self factor.most factor.value e result }
    {
        let mut product = self;
        for _ in 0..e {
            product = product.times(factor);
        }
        product
    }
}
