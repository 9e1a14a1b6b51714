// The slope of a sum in slices, term by term.
ghost use Rattle.std.specs.Prelude.{◌≡◌, ◌≤◌, ◌<◌, length, take};
ghost use Rattle.algebra.specs.Limits.{variables, largest_weight};
ghost use Rattle.algebra.specs.Sum.{weight};
ghost use Rattle.algebra.specs.Slope.{slope};
ghost use Rattle.algebra.specs.Word.{terms};
ghost use Rattle.algebra.specs.Held.{words_of, coefficients_of, first_terms};
ghost use Rattle.answers.specs.Areas.{written};
ghost use Rattle.weights.specs.Capped.{capped};
ghost use Rattle.sums.specs.Held.{HeldSum};

use algebra::{Pattern, Terms};

// The absolute coefficients of the slope, added: up to sixty times those of the sum, so they are found before any is formed.
pub(crate) fn weigh(v: u64, s: Terms) -> u64
    requires known { v < variables }
    requires held_sum { HeldSum s.patterns.now s.coefficients.now }
    ensures { result ≡ capped (weight (slope v (terms s.entry.patterns.now s.entry.coefficients.now))) }
{
    let mut weight = 0;
    for (word, c) in s.patterns.iter().zip(s.coefficients) {
        let power = Pattern(*word).exponent(v);
        weight = weights::sum(weight, weights::product(c.unsigned_abs(), power));
    }
    weight
}

// A term without v goes, the others stay in order. No coefficient is too large: their weight was found to be at most 2^62.
// The slope takes the places of the sum: a term is written after it was read, to its own place or one before it.
pub(crate) fn form(v: u64, n: usize, patterns: &mut [u64], coefficients: &mut [i64]) -> usize
    requires known { v < variables }
    requires in_patterns { n ≤ length patterns.old }
    requires in_coefficients { n ≤ length coefficients.old }
    requires held_sum { HeldSum (take n patterns.old) (take n coefficients.old) }
    requires light { weight (slope v (first_terms n patterns.old coefficients.old)) ≤ largest_weight }
    ensures value { result ≡ length (slope v (first_terms n patterns.old coefficients.old)) }
    ensures patterns_after { patterns.new
        ≡ written (words_of (slope v (first_terms n patterns.old coefficients.old))) patterns.old }
    ensures coefficients_after { coefficients.new
        ≡ written (coefficients_of (slope v (first_terms n patterns.old coefficients.old))) coefficients.old }
{
    let mut count = 0;
    for k in 0..n {
        let step = Pattern(patterns[k]).slope_step(v);
        if step.power == 0 {
            continue;
        }
        coefficients[count] = coefficients[k] * step.power as i64;
        patterns[count] = step.pattern.0;
        count += 1;
    }
    count
}
