// One pair of a substitution list: a sum is put for a variable in another sum.
// Begin with specs/Asked.antt and specs/Formed.antt, then with `measure` (degree and weight) and `putting::put`.
#![tactic(auto)]

ghost use Rattle.std.specs.Prelude.{◌≡◌};
ghost use Rattle.algebra.specs.Substitute.{pair_degree, pair_weight, largest_power};
ghost use Rattle.algebra.specs.Word.{terms};
ghost use Rattle.weights.specs.Capped.{capped};
ghost use Rattle.pair.specs.Asked.{CanPut};

use algebra::{Pattern, Terms};

pub mod putting;

// What a pair is judged by before anything is formed; and the largest power of the variable. A weight above 2^62 is told by 2^62 + 1.
#[derive(Clone, Copy, Debug, PartialEq, Eq)]
pub struct Measured {
    pub degree: u64,
    pub weight: u64,
    pub power: u64,
}

// Term by term: the other exponents added and the power of v times the degree of the sum that is put; the absolute coefficient times the weight of that
// sum, raised.
// Asks that the variable's number is below 8, and both sums are held sums.
pub fn measure(v: u64, put: Terms, into: Terms) -> Measured
    requires { CanPut v put.patterns.now put.coefficients.now into.patterns.now into.coefficients.now }
    ensures { let S = terms put.entry.patterns.now put.entry.coefficients.now in
        let s = terms into.entry.patterns.now into.entry.coefficients.now in
        (result.degree ≡ pair_degree v S s) × (result.weight ≡ capped (pair_weight v S s)) × (result.power ≡ largest_power v s) }
{
    let size = sums::size_of(put);
    let mut degree = 0;
    let mut weight = 0;
    let mut power = 0;
    for (word, c) in into.patterns.iter().zip(into.coefficients) {
        let pattern = Pattern(*word);
        let e = pattern.exponent(v);
        degree = degree.max(pattern.degree() - e + e * size.degree);
        let term = weights::product(c.unsigned_abs(), weights::power(size.weight, e));
        weight = weights::sum(weight, term);
        power = power.max(e);
    }
    Measured {
        degree,
        weight,
        power,
    }
}
