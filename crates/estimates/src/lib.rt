// The estimate of a sum in slices at readings, and its margin: what finds them, for every operation that asks.
// Begin with specs/Readings.antt and specs/Range.antt, then with `estimate_at`; `readings` reads the numbers and judges them.
#![tactic(auto)]

ghost use Rattle.std.specs.Prelude.{◌≡◌, length};
ghost use Rattle.algebra.specs.Limits.{variables};
ghost use Rattle.algebra.specs.Word.{terms};
ghost use Rattle.estimates.specs.Readings.{before_negative, measured};
ghost use Rattle.estimates.specs.Range.{judge_range};
ghost use Rattle.estimates.specs.Inside.Found.{found_of};

use crate::readings::Readings;
use algebra::{LARGEST_WEIGHT, Pattern, Terms};

mod factors;
mod powers;
pub mod readings;
mod valuing;

// A number for each variable.
pub const VARIABLES: usize = Pattern::VARIABLES as usize;

// The value at the readings, and a bound on how far the true value is from it.
#[derive(Clone, Copy, Debug, PartialEq, Eq)]
pub struct Estimate {
    pub value: i64,
    pub margin: u64,
}

// The sum that two slices hold, at readings whose tolerances are not negative; none where the raised value is above 2^62. The raised value is at least as
// large as the value with all signs dropped.
// Asks that there is a coefficient for each pattern, a reading and a tolerance for each variable, and no tolerance below 0.
pub fn estimate_at(sum: Terms, readings: &[i64], tolerances: &[i64]) -> Option<Estimate>
    requires coefficients_len { length sum.coefficients.now ≡ length sum.patterns.now }
    requires readings_len { length readings.now ≡ variables }
    requires tolerances_len { length tolerances.now ≡ variables }
    requires tolerances_value { before_negative tolerances.now ≡ length tolerances.now }
    ensures { found_of result
        ≡ judge_range (terms sum.entry.patterns.now sum.entry.coefficients.now) (measured readings.now tolerances.now) }
{
    let mut raised = [0u64; VARIABLES];
    readings::raise(readings, tolerances, &mut raised);
    let measured = Readings {
        readings,
        raised: &raised,
    };
    let parts = valuing::sum_parts(sum, measured);
    if parts.most > LARGEST_WEIGHT {
        return None;
    }
    Some(Estimate {
        value: parts.estimate,
        margin: parts.most - parts.plain,
    })
}
