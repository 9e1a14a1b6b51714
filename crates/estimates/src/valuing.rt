// The value of a sum at the readings, and its raised value, term by term.
ghost use Rattle.std.specs.Prelude.{pos, ◌≡◌, ◌<◌, ◌≤◌, List, [], ◌∷◌, get_or, ℕ, ℤ, ◌+◌, ◌*◌, nat_abs, ◌*ℤ◌, length};
ghost use Rattle.algebra.specs.Limits.{variables};
ghost use Rattle.algebra.specs.Value.{pattern_value};
ghost use Rattle.algebra.specs.Margin.{pattern_size};
ghost use Rattle.algebra.specs.Word.{exponents, terms};
ghost use Rattle.estimates.specs.Inside.Held.{Holds};
ghost use Rattle.estimates.specs.Inside.Parts.{Keeps, Allowed, Added, TimesPower};
ghost use Rattle.estimates.specs.Inside.Powers.{Callable, Multiplies, TimesAt, Under, Uses};

use crate::factors::Both;
use crate::readings::Readings;
use crate::{VARIABLES, powers};
use algebra::{LARGEST_WEIGHT, Pattern, Terms};

// So many terms are few.
const FEW_TERMS: usize = 16;

// A row of a table has the powers below 8, or all that a pattern can have.
const NARROW: usize = 8;

const WIDE: usize = 64;

// What a sum of terms comes to: its raised value, the most that it can be; its value at the readings; and that with all signs dropped.
#[derive(Clone, Copy)]
pub(crate) struct Parts {
    pub(crate) most: u64,
    pub(crate) estimate: i64,
    pub(crate) plain: u64,
}

impl Parts {
    const NONE: Parts = Parts {
        most: 0,
        estimate: 0,
        plain: 0,
    };

    // A term more. If the raised value is too large then, the other two do not matter any more.
    fn with(self, term: Both) -> Parts
        requires { Allowed self }
        ensures { Added self term result }
    {
        if term.most > LARGEST_WEIGHT - self.most {
            return Parts {
                most: LARGEST_WEIGHT + 1,
                ..self
            };
        }
        Parts {
            most: self.most + term.most,
            estimate: self.estimate + term.value,
            plain: self.plain + term.value.unsigned_abs(),
        }
    }
}

// One term: its coefficient, times a power for each variable that it has.
fn term<F: Fn(Both, usize, u64) -> Both>(c: i64, pattern: u64, times_power: F) -> Both
    requires { Callable (F.pre times_power) (pattern ∷ []) }
    ensures { (x : List ℤ) (y : List ℕ) → Multiplies (F.post times_power) x y (pattern ∷ [])
        → Holds result.most result.value (nat_abs c * pattern_size (exponents pattern) y)
        (c *ℤ pattern_value (exponents pattern) x) }
{
    let mut product = Both::of(c);
    for v in 0..VARIABLES {
        let e = Pattern(pattern).exponent(v as u64);
        if e > 0 {
            product = times_power(product, v, e);
        }
    }
    product
}

// All terms, up to the first with which the raised value is too large.
fn sum_of<F: Fn(Both, usize, u64) -> Both>(sum: Terms, times_power: F) -> Parts
    requires coefficients_len { length sum.coefficients.now ≡ length sum.patterns.now }
    requires callable { Callable (F.pre times_power) sum.patterns.now }
    ensures { (x : List ℤ) (y : List ℕ) → Multiplies (F.post times_power) x y sum.entry.patterns.now
        → Keeps result (terms sum.entry.patterns.now sum.entry.coefficients.now) x y }
{
    let mut parts = Parts::NONE;
    for (pattern, c) in sum.patterns.iter().zip(sum.coefficients) {
        parts = parts.with(term(*c, *pattern, &times_power));
        if parts.most > LARGEST_WEIGHT {
            return parts;
        }
    }
    parts
}

// All terms, by a table of powers.
fn tabled_sum<const N: usize>(sum: Terms, readings: Readings, used: Pattern) -> Parts
    requires coefficients_len { length sum.coefficients.now ≡ length sum.patterns.now }
    requires uses { Uses (exponents used.0) sum.patterns.now }
    requires under { Under N (exponents used.0) }
    requires places { N ≤ 64 }
    ensures { Keeps result (terms sum.entry.patterns.now sum.entry.coefficients.now)
        readings.entry.readings.now readings.entry.raised.now }
{
    let none = Both::of(0);
    let mut table = [[none; N]; VARIABLES];
    powers::fill(&mut table, readings, used);
    sum_of(
        sum,
        |product: Both, v: usize, e: u64| -> Both
            requires v_lt_variables { v < variables }
            requires e_lt_n { e < N }
            ensures { TimesAt product (get_or table v []) e result }
        {
            let row = &table[v];
            product.times(row[e as usize])
        },
    )
}

// A pattern that has no smaller exponent than any of the terms: so far the tables are filled.
fn used_by(patterns: &[u64]) -> Pattern
    ensures { Uses (exponents result.0) patterns.now }
{
    let mut used = Pattern::EMPTY;
    for word in patterns {
        used = used.either(Pattern(*word));
    }
    used
}

fn largest_exponent(pattern: Pattern) -> u64
    ensures { Under (result + 1) (exponents pattern.0) }
{
    let mut most = 0;
    for v in 0..Pattern::VARIABLES {
        most = pattern.exponent(v).max(most);
    }
    most
}

// All terms. For a few of them tables would take longer to fill than they save. (No sum that is accepted has an exponent of 64 or more.)
pub(crate) fn sum_parts(sum: Terms, readings: Readings) -> Parts
    requires { length sum.coefficients.now ≡ length sum.patterns.now }
    ensures { Keeps result (terms sum.entry.patterns.now sum.entry.coefficients.now)
        readings.entry.readings.now readings.entry.raised.now }
{
    if sum.len() > FEW_TERMS {
        let used = used_by(sum.patterns);
        let largest = largest_exponent(used) as usize;
        if largest < NARROW {
            return tabled_sum::<NARROW>(sum, readings, used);
        }
        if largest < WIDE {
            return tabled_sum::<WIDE>(sum, readings, used);
        }
    }
    sum_of(
        sum,
        |product: Both, v: usize, e: u64| -> Both
            requires { v < variables }
            ensures { TimesPower product (get_or readings.entry.raised.now v 0) (get_or readings.entry.readings.now v (pos 0)) e result }
        { product.times_power(readings.at(v), e) },
    )
}
