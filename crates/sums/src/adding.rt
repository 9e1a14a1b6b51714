// Two sums added: their terms are merged from the front. x terms of the sum s are done, and y of the sum t.
// By index: which of the two sums goes on shows only inside the loop.
ghost use Rattle.std.specs.Prelude.{◌≡◌, ◌≤◌, leb, length};
ghost use Rattle.algebra.specs.Limits.{most_terms};
ghost use Rattle.algebra.specs.Arithmetic.{◌⊕◌, sum_spread};
ghost use Rattle.algebra.specs.Inside.Standing.{standing};
ghost use Rattle.algebra.specs.Word.{terms, EachValid};
ghost use Rattle.sums.specs.Held.{Held};
ghost use Rattle.sums.specs.Asked.{Addends};
ghost use Rattle.sums.specs.Formed.{Formed.formed, formed_into};
ghost use Rattle.sums.specs.Adding.{next_stands};

use algebra::{MOST_TERMS, Pattern, Terms};
use std::cmp::Ordering;

// How their next terms stand to each other. Where one of the two has no terms left, the other one's is next.
fn stands(sp: &[u64], x: usize, tp: &[u64], y: usize) -> Ordering
    requires each_valid { EachValid sp.now }
    requires each_valid_2 { EachValid tp.now }
    requires x_in_bounds { x ≤ length sp.now }
    requires y_in_bounds { y ≤ length tp.now }
    ensures { standing result ≡ next_stands x sp.now y tp.now }
{
    if y == tp.len() {
        return Ordering::Less;
    }
    if x == sp.len() {
        return Ordering::Greater;
    }
    Pattern(sp[x]).compare(Pattern(tp[y]))
}

// The number of different patterns of the two. The coefficients do not matter: a pattern whose terms cancel counts too.
fn spread(s: Terms, t: Terms) -> usize
    requires held { Held s.patterns.now s.coefficients.now }
    requires held_2 { Held t.patterns.now t.coefficients.now }
    ensures { result
        ≡ sum_spread (terms s.entry.patterns.now s.entry.coefficients.now) (terms t.entry.patterns.now t.entry.coefficients.now) }
{
    let all = s.patterns.len() + t.patterns.len();
    let mut x = 0;
    let mut y = 0;
    let mut count = 0;
    while x + y < all {
        count += 1;
        match stands(s.patterns, x, t.patterns, y) {
            Ordering::Less => {
                x += 1;
            }
            Ordering::Equal => {
                x += 1;
                y += 1;
            }
            Ordering::Greater => {
                y += 1;
            }
        }
    }
    count
}

// Whether their spread is at most 128. Only more than 128 terms can have a larger one, so otherwise it need not be counted.
pub(crate) fn fits(s: Terms, t: Terms) -> bool
    requires held { Held s.patterns.now s.coefficients.now }
    requires held_2 { Held t.patterns.now t.coefficients.now }
    ensures { result ≡ leb
        (sum_spread (terms s.entry.patterns.now s.entry.coefficients.now) (terms t.entry.patterns.now t.entry.coefficients.now))
        most_terms }
{
    if s.patterns.len() + t.patterns.len() <= MOST_TERMS {
        return true;
    }
    spread(s, t) <= MOST_TERMS
}

// The sum, in the first places of two areas that have room for its spread. Each term is written once, and what cancels is not written. It answers the number of terms.
pub(crate) fn merge(s: Terms, t: Terms, patterns: &mut [u64], coefficients: &mut [i64]) -> usize
    requires addends { Addends s.patterns.now s.coefficients.now t.patterns.now t.coefficients.now }
    requires room_for_patterns { sum_spread (terms s.patterns.now s.coefficients.now) (terms t.patterns.now t.coefficients.now) ≤ length patterns.old }
    requires room_for_coefficients { sum_spread (terms s.patterns.now s.coefficients.now) (terms t.patterns.now t.coefficients.now) ≤ length coefficients.old }
    ensures { (formed result, patterns.new, coefficients.new)
        ≡ formed_into
        (formed (terms s.entry.patterns.now s.entry.coefficients.now ⊕ terms t.entry.patterns.now t.entry.coefficients.now))
        patterns.old coefficients.old }
{
    let all = s.patterns.len() + t.patterns.len();
    let mut x = 0;
    let mut y = 0;
    let mut k = 0;
    while x + y < all {
        match stands(s.patterns, x, t.patterns, y) {
            Ordering::Less => {
                let c = s.coefficients[x];
                patterns[k] = s.patterns[x];
                coefficients[k] = c;
                x += 1;
                k += 1;
            }
            Ordering::Equal => {
                let c = s.coefficients[x];
                let d = t.coefficients[y];
                let e = c + d;
                if e == 0 {
                    x += 1;
                    y += 1;
                } else {
                    patterns[k] = s.patterns[x];
                    coefficients[k] = e;
                    x += 1;
                    y += 1;
                    k += 1;
                }
            }
            Ordering::Greater => {
                let d = t.coefficients[y];
                patterns[k] = t.patterns[y];
                coefficients[k] = d;
                y += 1;
                k += 1;
            }
        }
    }
    k
}
