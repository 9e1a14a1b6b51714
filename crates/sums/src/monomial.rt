// Powers of a sum of one term: one term again, so nothing is refused here.
ghost use Rattle.std.specs.Prelude.{◌≡◌, ◌≤◌, length};
ghost use Rattle.algebra.specs.Word.{terms};
ghost use Rattle.sums.specs.Asked.{Room, Base};
ghost use Rattle.sums.specs.Formed.{Formed.formed, power_of, formed_into};

use algebra::Terms;

// The power e of a sum of one term. (std's `pow` takes an exponent of 32 bits.)
pub(crate) fn raise(s: Terms, e: u64, patterns: &mut [u64], coefficients: &mut [i64])
    requires base { Base s.patterns.now s.coefficients.now e }
    requires one { length s.patterns.now ≡ 1 }
    requires le_e { 1 ≤ e }
    requires room { Room patterns.old coefficients.old }
    ensures { (formed 1, patterns.new, coefficients.new)
        ≡ formed_into (power_of (terms s.entry.patterns.now s.entry.coefficients.now) e) patterns.old coefficients.old }
{
    let c = s.coefficients[0];
    let mut power = c;
    for _ in 1..e {
        power *= c;
    }
    patterns[0] = e * s.patterns[0];
    coefficients[0] = power;
}
