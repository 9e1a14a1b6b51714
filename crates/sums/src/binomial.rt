// Powers of a sum of two terms, by Pascal's rule. No two products meet but those that add up, and nothing cancels, so nothing is refused here.
// By index: the place after the last is written as well.
ghost use Rattle.std.specs.Prelude.{◌≡◌, ◌+◌, ◌*◌, ◌^◌, ◌≤◌, ◌<◌, pos, nat_abs, length, take};
ghost use Rattle.algebra.specs.Limits.{largest_weight};
ghost use Rattle.algebra.specs.Word.{terms};
ghost use Rattle.answers.specs.Areas.{written};
ghost use Rattle.sums.specs.Asked.{Room, Base};
ghost use Rattle.sums.specs.Formed.{Formed.formed, power_of, formed_into};
ghost use Rattle.sums.specs.Binomial.{stepped, sizes, mixed};

use algebra::Terms;

// The first n coefficients are those of a power of two terms, whose coefficients are x and y; then the first n + 1 are those of the next power.
fn multiply_step(x: i64, y: i64, n: usize, coefficients: &mut [i64])
    requires n_in_bounds { n < length coefficients.old }
    requires y_bound { sizes (take n coefficients.old) * (nat_abs x + nat_abs y) ≤ largest_weight }
    ensures { coefficients.new ≡ written (stepped x y (pos 0) (take n coefficients.old)) coefficients.old }
{
    let mut left: i64 = 0;
    for k in 0..n {
        let c = coefficients[k];
        coefficients[k] = left * y + c * x;
        left = c;
    }
    coefficients[n] = left * y;
}

// The same where x and y are 1. It is a loop of its own since it is faster: the 60th power takes less than half the time (570 ns against 1,300).
fn add_step(n: usize, coefficients: &mut [i64])
    requires n_in_bounds { n < length coefficients.old }
    requires coefficients_bound { sizes (take n coefficients.old) * 2 ≤ largest_weight }
    ensures { coefficients.new ≡ written (stepped (pos 1) (pos 1) (pos 0) (take n coefficients.old)) coefficients.old }
{
    let mut left: i64 = 0;
    for k in 0..n {
        let c = coefficients[k];
        coefficients[k] = left + c;
        left = c;
    }
    coefficients[n] = left;
}

// The next power, the quick way where there is one.
fn step(x: i64, y: i64, n: usize, coefficients: &mut [i64])
    requires n_in_bounds { n < length coefficients.old }
    requires y_bound { sizes (take n coefficients.old) * (nat_abs x + nat_abs y) ≤ largest_weight }
    ensures { coefficients.new ≡ written (stepped x y (pos 0) (take n coefficients.old)) coefficients.old }
{
    if x == 1 {
        if y == 1 {
            add_step(n, coefficients);
            return;
        }
    }
    multiply_step(x, y, n, coefficients);
}

// The words of the power e: p as often as it can be, and then q for p once more each time.
fn words(p: u64, q: u64, e: usize, patterns: &mut [u64])
    requires e_in_bounds { e < length patterns.old }
    requires p_bound { e * p < 2 ^ 64 }
    requires q_bound { e * q < 2 ^ 64 }
    ensures { patterns.new ≡ written (mixed p q e 0) patterns.old }
{
    let mut word = e as u64 * p;
    for k in 0..e {
        patterns[k] = word;
        word = word - p + q;
    }
    patterns[e] = word;
}

// The power e of a sum of two terms.
pub(crate) fn raise(s: Terms, e: usize, patterns: &mut [u64], coefficients: &mut [i64])
    requires base { Base s.patterns.now s.coefficients.now e }
    requires two { length s.patterns.now ≡ 2 }
    requires le_e { 1 ≤ e }
    requires room { Room patterns.old coefficients.old }
    ensures { (formed (e + 1), patterns.new, coefficients.new)
        ≡ formed_into (power_of (terms s.entry.patterns.now s.entry.coefficients.now) e) patterns.old coefficients.old }
{
    let x = s.coefficients[0];
    let y = s.coefficients[1];
    coefficients[0] = x;
    coefficients[1] = y;
    for k in 1..e {
        step(x, y, k + 1, coefficients);
    }
    words(s.patterns[0], s.patterns[1], e, patterns);
}
