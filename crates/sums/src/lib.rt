// Sums in slices: the word of each pattern in one, the coefficients in the other. What is formed is written to the first places of two areas, patterns and
// coefficients; the answer is the number of terms, or None where a spread is above 128. What is always formed answers the number alone.
// Loops over a sum's terms go by index where there is little to do for each: zipped, the two slices take some ten instructions more for each term.
// Begin with specs/Asked.antt and specs/Formed.antt, then with `sum`, `product` and `power`; `rows` merges a row of products into a running sum.
// What is written stays two slices, as C lends it: a struct of `&mut` slices would have to say in each contract where they point.
#![tactic(auto)]

ghost use Rattle.std.specs.Prelude.{◌≡◌, ◌+◌, ◌^◌, ◌≤◌, ◌<◌, length};
ghost use Rattle.algebra.specs.Limits.{variables, most_terms};
ghost use Rattle.algebra.specs.Sum.{term, degree_of, weight};
ghost use Rattle.algebra.specs.Collect.{drop_zeros};
ghost use Rattle.algebra.specs.Arithmetic.{integer, variable, row};
ghost use Rattle.algebra.specs.Word.{exponents, terms};
ghost use Rattle.sums.specs.Held.{Held};
ghost use Rattle.sums.specs.Asked.{Room, RoomOf, Addends, Factors, Base};
ghost use Rattle.sums.specs.Formed.{formed_of, Formed.formed, sum_of, product_of, power_of, formed_into};
ghost use Rattle.sums.specs.Rows.{HasTerm, RoomFor};

use algebra::{MOST_TERMS, Pattern, Terms};
use answers::areas;

mod adding;
mod binomial;
mod monomial;
pub mod rows;

// The degree and the weight of a sum.
#[derive(Clone, Copy, Debug, PartialEq, Eq)]
pub struct Size {
    pub degree: u64,
    pub weight: u64,
}

// A running sum of 128 terms and a row of 128 more.
pub const MOST_PLACES: usize = MOST_TERMS + MOST_TERMS;

// Sums of a few terms, and their products.
const FEW_TERMS: usize = 8;

const FEW_PLACES: usize = FEW_TERMS * FEW_TERMS;

// ---- The degree and the weight.

// Both as they are, and not the formal ones. The weight needs no cap: it has to be a number of 64 bits, as that of every accepted sum is.
// Asks that the slices hold terms in order, and that their weight is below 2^64.
pub fn size_of(s: Terms) -> Size
    requires held { Held s.patterns.now s.coefficients.now }
    requires sc_bound { weight (terms s.patterns.now s.coefficients.now) < 2 ^ 64 }
    ensures { (result.degree ≡ degree_of (terms s.entry.patterns.now s.entry.coefficients.now))
        × (result.weight ≡ weight (terms s.entry.patterns.now s.entry.coefficients.now)) }
{
    let mut degree: u64 = 0;
    let mut weight: u64 = 0;
    for k in 0..s.patterns.len() {
        degree = degree.max(Pattern(s.patterns[k]).degree());
        let c = s.coefficients[k];
        weight += c.unsigned_abs();
    }
    Size { degree, weight }
}

// ---- Sums of one term at most.

// An integer. Zero has no terms.
// Asks that both areas have 128 places.
pub fn integer(n: i64, patterns: &mut [u64], coefficients: &mut [i64]) -> usize
    requires { Room patterns.old coefficients.old }
    ensures { (formed result, patterns.new, coefficients.new)
        ≡ formed_into (formed (integer variables n)) patterns.old coefficients.old }
{
    if n == 0 {
        return 0;
    }
    patterns[0] = Pattern::EMPTY.0;
    coefficients[0] = n;
    1
}

// A variable alone.
// Asks that the variable's number is below 8, and both areas have 128 places.
pub fn variable(v: u64, patterns: &mut [u64], coefficients: &mut [i64]) -> usize
    requires v_lt_variables { v < variables }
    requires room { Room patterns.old coefficients.old }
    ensures { (formed result, patterns.new, coefficients.new)
        ≡ formed_into (formed (variable variables v)) patterns.old coefficients.old }
{
    let pattern = Pattern::power(v, 1);
    patterns[0] = pattern.0;
    coefficients[0] = 1;
    1
}

// ---- Two sums added.

// The sum. Nothing is written where the spread is above 128: so it is judged before the terms are merged.
// Asks that both operands are held sums, their weights together are at most 2^62, and both areas have room for as many terms as both have
// together, or for 128.
pub fn sum(s: Terms, t: Terms, patterns: &mut [u64], coefficients: &mut [i64]) -> Option<usize>
    requires addends { Addends s.patterns.now s.coefficients.now t.patterns.now t.coefficients.now }
    requires room_of { RoomOf (length s.patterns.now + length t.patterns.now) patterns.old coefficients.old }
    ensures { (formed_of result, patterns.new, coefficients.new)
        ≡ formed_into
        (sum_of (terms s.entry.patterns.now s.entry.coefficients.now) (terms t.entry.patterns.now t.entry.coefficients.now))
        patterns.old coefficients.old }
{
    if !adding::fits(s, t) {
        return None;
    }
    Some(adding::merge(s, t, patterns, coefficients))
}

// ---- Products and powers. The running sum stands in arrays of its own: the areas are written when nothing can be refused any more.

// The product by one term needs no running sum: patterns that differ still do, and stay in order.
// Asks that the word is valid, the operand is held, degree and weight of the product are within the limits, and both areas have room for as many
// terms as the operand has, or for 128.
pub fn multiply_by_term(
    word: u64,
    c: i64,
    t: Terms,
    patterns: &mut [u64],
    coefficients: &mut [i64],
) -> usize
    requires has_term { HasTerm word c t.patterns.now t.coefficients.now }
    requires room_of { RoomOf (length t.patterns.now) patterns.old coefficients.old }
    ensures { (formed result, patterns.new, coefficients.new)
        ≡ formed_into
        (formed (drop_zeros (row (term c (exponents word)) (terms t.entry.patterns.now t.entry.coefficients.now))))
        patterns.old coefficients.old }
{
    let mut count = 0;
    for k in 0..t.patterns.len() {
        let d = t.coefficients[k];
        let value = c * d;
        if value == 0 {
            continue;
        }
        let pattern = Pattern(word).product(Pattern(t.patterns[k]));
        patterns[count] = pattern.0;
        coefficients[count] = value;
        count += 1;
    }
    count
}

// The product, formed in arrays of the caller's own: two for the running sum, and one for the ranks of each operand. They are no struct: that would be cleared
// as a whole, and then copied, and a product of two terms by two would take several times as long.
fn multiply_in(
    s: Terms,
    t: Terms,
    gr: &mut [u64],
    gc: &mut [i64],
    sr: &mut [u64],
    tr: &mut [u64],
    patterns: &mut [u64],
    coefficients: &mut [i64],
) -> Option<usize>
    requires factors { Factors s.patterns.now s.coefficients.now t.patterns.now t.coefficients.now }
    requires room_for { RoomFor 0 (length s.patterns.now) (length t.patterns.now) (length gr.old) }
    requires room_for_2 { RoomFor 0 (length s.patterns.now) (length t.patterns.now) (length gc.old) }
    requires s_in_bounds { length s.patterns.now ≤ length sr.old }
    requires t_in_bounds { length t.patterns.now ≤ length tr.old }
    requires room { Room patterns.old coefficients.old }
    ensures { (formed_of result, patterns.new, coefficients.new)
        ≡ formed_into
        (product_of (terms s.entry.patterns.now s.entry.coefficients.now) (terms t.entry.patterns.now t.entry.coefficients.now))
        patterns.old coefficients.old }
{
    rows::rank_words(s.patterns, sr);
    rows::rank_words(t.patterns, tr);
    let s_ranks = Terms {
        patterns: &sr[..s.patterns.len()],
        coefficients: s.coefficients,
    };
    let t_ranks = Terms {
        patterns: &tr[..t.patterns.len()],
        coefficients: t.coefficients,
    };
    let all = rows::add_pairs(gr, gc, 0, s_ranks, t_ranks)?;
    Some(rows::finish(Terms::first(all, gr, gc), patterns, coefficients))
}

// The same in arrays of this function: the operands have N terms at most, and the running sum P.
fn multiply_by<const N: usize, const P: usize>(
    s: Terms,
    t: Terms,
    patterns: &mut [u64],
    coefficients: &mut [i64],
) -> Option<usize>
    requires n_bound { N ≤ most_terms }
    requires p_bound { P ≤ most_terms + most_terms }
    requires factors { Factors s.patterns.now s.coefficients.now t.patterns.now t.coefficients.now }
    requires places { RoomFor 0 (length s.patterns.now) (length t.patterns.now) P }
    requires s_in_bounds { length s.patterns.now ≤ N }
    requires t_in_bounds { length t.patterns.now ≤ N }
    requires room { Room patterns.old coefficients.old }
    ensures { (formed_of result, patterns.new, coefficients.new)
        ≡ formed_into
        (product_of (terms s.entry.patterns.now s.entry.coefficients.now) (terms t.entry.patterns.now t.entry.coefficients.now))
        patterns.old coefficients.old }
{
    let mut gr = [0; P];
    let mut gc = [0; P];
    let mut sr = [0; N];
    let mut tr = [0; N];
    multiply_in(
        s,
        t,
        &mut gr,
        &mut gc,
        &mut sr,
        &mut tr,
        patterns,
        coefficients,
    )
}

// The product, with a row for each term of the first operand. Small ones are formed in small arrays: to clear large ones would take longer than to multiply.
fn multiply(s: Terms, t: Terms, patterns: &mut [u64], coefficients: &mut [i64]) -> Option<usize>
    requires factors { Factors s.patterns.now s.coefficients.now t.patterns.now t.coefficients.now }
    requires s_in_bounds { length s.patterns.now ≤ length t.patterns.now }
    requires room { Room patterns.old coefficients.old }
    ensures { (formed_of result, patterns.new, coefficients.new)
        ≡ formed_into
        (product_of (terms s.entry.patterns.now s.entry.coefficients.now) (terms t.entry.patterns.now t.entry.coefficients.now))
        patterns.old coefficients.old }
{
    if s.patterns.len() == 1 {
        let c = s.coefficients[0];
        return Some(multiply_by_term(s.patterns[0], c, t, patterns, coefficients));
    }
    if t.patterns.len() <= FEW_TERMS {
        return multiply_by::<FEW_TERMS, FEW_PLACES>(s, t, patterns, coefficients);
    }
    multiply_by::<MOST_TERMS, MOST_PLACES>(s, t, patterns, coefficients)
}

// The product, with a row for each term of the shorter operand. It is also one step of a power.
// Asks that both operands are held, the degree and weight of the product are within the limits, and both areas have 128 places.
pub fn product(s: Terms, t: Terms, patterns: &mut [u64], coefficients: &mut [i64]) -> Option<usize>
    requires factors { Factors s.patterns.now s.coefficients.now t.patterns.now t.coefficients.now }
    requires room { Room patterns.old coefficients.old }
    ensures { (formed_of result, patterns.new, coefficients.new)
        ≡ formed_into
        (product_of (terms s.entry.patterns.now s.entry.coefficients.now) (terms t.entry.patterns.now t.entry.coefficients.now))
        patterns.old coefficients.old }
{
    if t.patterns.len() < s.patterns.len() {
        return multiply(t, s, patterns, coefficients);
    }
    multiply(s, t, patterns, coefficients)
}

// The power is multiplied by the base again and again, with a row for each term of the base; with exponent 1 it is the base. The arrays that a product works in are declared once: to clear
// them for each would take longer than a small product.
fn repeated(s: Terms, e: u64, patterns: &mut [u64], coefficients: &mut [i64]) -> Option<usize>
    requires base { Base s.patterns.now s.coefficients.now e }
    requires e_nonzero { 0 < e }
    requires room { Room patterns.old coefficients.old }
    ensures { (formed_of result, patterns.new, coefficients.new)
        ≡ formed_into (power_of (terms s.entry.patterns.now s.entry.coefficients.now) e) patterns.old coefficients.old }
{
    let mut gr = [0; MOST_PLACES];
    let mut gc = [0; MOST_PLACES];
    let mut sr = [0; MOST_TERMS];
    let mut tr = [0; MOST_TERMS];
    let mut own_patterns = [0u64; MOST_TERMS];
    let mut own_coefficients = [0i64; MOST_TERMS];
    let mut next_patterns = [0u64; MOST_TERMS];
    let mut next_coefficients = [0i64; MOST_TERMS];
    let mut n = s.patterns.len();
    // By name: what is compiled in here of std's own copying would call memmove, which a host of this library need not have for anything else.
    areas::copy_words(&mut own_patterns, s.patterns, n);
    areas::copy_coefficients(&mut own_coefficients, s.coefficients, n);
    for _ in 1..e {
        n = multiply_in(
            s,
            Terms::first(n, &own_patterns, &own_coefficients),
            &mut gr,
            &mut gc,
            &mut sr,
            &mut tr,
            &mut next_patterns,
            &mut next_coefficients,
        )?;
        own_patterns = next_patterns;
        own_coefficients = next_coefficients;
    }
    patterns[..n].copy_from_slice(&own_patterns[..n]);
    coefficients[..n].copy_from_slice(&own_coefficients[..n]);
    Some(n)
}

// A power with exponent 0 is 1. One of a base of one or two terms needs no products, and a square is one product; any other is multiplied by the base again and again.
// Asks that the base is held and has no coefficient 0, the degree and weight of the power are within the limits, and both areas have 128 places.
pub fn power(s: Terms, e: u64, patterns: &mut [u64], coefficients: &mut [i64]) -> Option<usize>
    requires base { Base s.patterns.now s.coefficients.now e }
    requires room { Room patterns.old coefficients.old }
    ensures { (formed_of result, patterns.new, coefficients.new)
        ≡ formed_into (power_of (terms s.entry.patterns.now s.entry.coefficients.now) e) patterns.old coefficients.old }
{
    if e == 0 {
        return Some(integer(1, patterns, coefficients));
    }
    if s.patterns.len() == 1 {
        monomial::raise(s, e, patterns, coefficients);
        return Some(1);
    }
    if s.patterns.len() == 2 {
        binomial::raise(s, e as usize, patterns, coefficients);
        return Some(e as usize + 1);
    }
    if e == 2 {
        return product(s, s, patterns, coefficients);
    }
    repeated(s, e, patterns, coefficients)
}
