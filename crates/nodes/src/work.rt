// The sum of a node, formed of the sums of earlier nodes, in the work areas. Whatever the node is, its terms are written through the part of both areas that starts at 128 × its index and is lent
// on for them. While a part is lent to be written, no other part of that area can be read. So the operands of products and powers are copied to arrays, and what they give is formed in the lent part;
// but a sum, and a product with a node of one term, is formed in arrays, of operands that are read where they stand, and is then put into the lent part: most nodes are of these two kinds, and
// with their operands copied the whole was measured slower. A node's index and the counts of the nodes before are passed as they are: as fields of a struct they would have longer names in each
// contract.
// What is written stays two slices, as C lends it: a struct of `&mut` slices would have to say in each contract where they point.
ghost use Rattle.std.specs.Prelude.{◌≡◌, ◌+◌, ◌*◌, ◌≤◌, min, length, get_or, take};
ghost use Rattle.algebra.specs.Limits.{most_terms};
ghost use Rattle.sums.specs.Formed.{formed_of};
ghost use Rattle.nodes.specs.Node.{Kind.sum, Kind.product, Kind.power};
ghost use Rattle.nodes.specs.Inside.Code.{kind_of};
ghost use Rattle.sums.specs.Part.{part};
ghost use Rattle.nodes.specs.Inside.Work.{sums_at, node_formed, Ready, FormedAt, PutAt};

use crate::Kind;
use algebra::{MOST_TERMS, Terms};

// Where an operand of few terms is copied.
const FEW_TERMS: usize = 8;

// Where a sum of few terms is formed, before it is put into a part.
const FEW_PLACES: usize = 16;

// The n terms of an earlier node, where they stand.
fn terms_of<'a>(node: usize, n: usize, patterns: &'a [u64], coefficients: &'a [i64]) -> Terms<'a>
    requires words_room { most_terms * node + most_terms ≤ length patterns.now }
    requires coefficients_room { most_terms * node + most_terms ≤ length coefficients.now }
    requires n_le_most_terms { n ≤ most_terms }
    ensures patterns { result.patterns.now ≡ take n (part node patterns.entry.now) }
    ensures coefficients { result.coefficients.now ≡ take n (part node coefficients.entry.now) }
    ensures many_patterns { length result.patterns.now ≡ n }
    ensures many_coefficients { length result.coefficients.now ≡ n }
{
    let start = MOST_TERMS * node;
    let end = start + n;
    Terms {
        patterns: &patterns[start..end],
        coefficients: &coefficients[start..end],
    }
}

// They are copied to arrays.
fn copy_operand(
    node: usize,
    n: usize,
    patterns: &[u64],
    coefficients: &[i64],
    sp: &mut [u64],
    sc: &mut [i64],
)
    requires words_room { most_terms * node + most_terms ≤ length patterns.now }
    requires coefficients_room { most_terms * node + most_terms ≤ length coefficients.now }
    requires n_le_most_terms { n ≤ most_terms }
    requires n_in_sp { n ≤ length sp.old }
    requires n_in_sc { n ≤ length sc.old }
    ensures sp_after { take n sp.new ≡ take n (part node patterns.now) }
    ensures sc_after { take n sc.new ≡ take n (part node coefficients.now) }
{
    let operand = terms_of(node, n, patterns, coefficients);
    sp[..n].copy_from_slice(operand.patterns);
    sc[..n].copy_from_slice(operand.coefficients);
}

// Terms that were formed in arrays, put into the part of node i.
fn put_terms(
    i: usize,
    count: usize,
    sp: &[u64],
    sc: &[i64],
    patterns: &mut [u64],
    coefficients: &mut [i64],
)
    requires words_room { most_terms * i + most_terms ≤ length patterns.old }
    requires coefficients_room { most_terms * i + most_terms ≤ length coefficients.old }
    requires count_le_most_terms { count ≤ most_terms }
    requires count_in_sp { count ≤ length sp.now }
    requires count_in_sc { count ≤ length sc.now }
    ensures words_put { PutAt i (take count sp.now) patterns.old patterns.new }
    ensures coefficients_put { PutAt i (take count sc.now) coefficients.old coefficients.new }
{
    let start = MOST_TERMS * i;
    let end = start + count;
    patterns[start..end].copy_from_slice(&sp[..count]);
    coefficients[start..end].copy_from_slice(&sc[..count]);
}

// ---- A sum, a product and a power, into the part of node i. Each is formed by way of arrays, small ones if the operands have few terms: to clear large ones
// would take longer than to form the sum.

// The sum of two earlier nodes, by way of arrays of so many places.
fn sum_by<const PLACES: usize>(
    a: usize,
    b: usize,
    i: usize,
    counts: &[usize],
    patterns: &mut [u64],
    coefficients: &mut [i64],
) -> Option<usize>
    requires ready { Ready i counts.now patterns.old coefficients.old (sum a b) }
    requires places { min (get_or counts.now a 0 + get_or counts.now b 0) most_terms ≤ PLACES }
    requires places_le_most_terms { PLACES ≤ most_terms }
    ensures { FormedAt i (node_formed (sums_at i counts.now patterns.old coefficients.old) (sum a b)) (formed_of result)
        patterns.old coefficients.old patterns.new coefficients.new }
{
    let mut sp = [0u64; PLACES];
    let mut sc = [0i64; PLACES];
    let s = terms_of(a, counts[a], patterns, coefficients);
    let t = terms_of(b, counts[b], patterns, coefficients);
    let count = sums::sum(s, t, &mut sp, &mut sc)?;
    put_terms(i, count, &sp, &sc, patterns, coefficients);
    Some(count)
}

fn form_sum(
    a: usize,
    b: usize,
    i: usize,
    counts: &[usize],
    patterns: &mut [u64],
    coefficients: &mut [i64],
) -> Option<usize>
    requires { Ready i counts.now patterns.old coefficients.old (sum a b) }
    ensures { FormedAt i (node_formed (sums_at i counts.now patterns.old coefficients.old) (sum a b)) (formed_of result)
        patterns.old coefficients.old patterns.new coefficients.new }
{
    if counts[a] + counts[b] <= FEW_PLACES {
        sum_by::<FEW_PLACES>(a, b, i, counts, patterns, coefficients)
    } else {
        sum_by::<MOST_TERMS>(a, b, i, counts, patterns, coefficients)
    }
}

// The product of two earlier nodes, by way of arrays of so many places for each operand.
fn product_by<const PLACES: usize>(
    a: usize,
    b: usize,
    i: usize,
    counts: &[usize],
    patterns: &mut [u64],
    coefficients: &mut [i64],
) -> Option<usize>
    requires ready { Ready i counts.now patterns.old coefficients.old (product a b) }
    requires a_fits { get_or counts.now a 0 ≤ PLACES }
    requires b_fits { get_or counts.now b 0 ≤ PLACES }
    requires places_le_most_terms { PLACES ≤ most_terms }
    ensures { FormedAt i (node_formed (sums_at i counts.now patterns.old coefficients.old) (product a b)) (formed_of result)
        patterns.old coefficients.old patterns.new coefficients.new }
{
    let mut sp = [0u64; PLACES];
    let mut sc = [0i64; PLACES];
    let mut tp = [0u64; PLACES];
    let mut tc = [0i64; PLACES];
    let n = counts[a];
    let m = counts[b];
    copy_operand(a, n, patterns, coefficients, &mut sp, &mut sc);
    copy_operand(b, m, patterns, coefficients, &mut tp, &mut tc);
    let start = MOST_TERMS * i;
    let end = start + MOST_TERMS;
    sums::product(
        Terms::first(n, &sp, &sc),
        Terms::first(m, &tp, &tc),
        &mut patterns[start..end],
        &mut coefficients[start..end],
    )
}

// The product of an earlier node of one term with another one, by way of arrays of so many places.
fn term_product_by<const PLACES: usize>(
    a: usize,
    b: usize,
    i: usize,
    counts: &[usize],
    patterns: &mut [u64],
    coefficients: &mut [i64],
) -> Option<usize>
    requires ready { Ready i counts.now patterns.old coefficients.old (product a b) }
    requires one_term { get_or counts.now a 0 ≡ 1 }
    requires b_fits { get_or counts.now b 0 ≤ PLACES }
    requires places_le_most_terms { PLACES ≤ most_terms }
    ensures { FormedAt i (node_formed (sums_at i counts.now patterns.old coefficients.old) (product a b)) (formed_of result)
        patterns.old coefficients.old patterns.new coefficients.new }
{
    let mut sp = [0u64; PLACES];
    let mut sc = [0i64; PLACES];
    let s = terms_of(a, counts[a], patterns, coefficients);
    let t = terms_of(b, counts[b], patterns, coefficients);
    let count = sums::multiply_by_term(s.patterns[0], s.coefficients[0], t, &mut sp, &mut sc);
    put_terms(i, count, &sp, &sc, patterns, coefficients);
    Some(count)
}

fn term_product(
    a: usize,
    b: usize,
    i: usize,
    counts: &[usize],
    patterns: &mut [u64],
    coefficients: &mut [i64],
) -> Option<usize>
    requires ready { Ready i counts.now patterns.old coefficients.old (product a b) }
    requires one_term { get_or counts.now a 0 ≡ 1 }
    ensures { FormedAt i (node_formed (sums_at i counts.now patterns.old coefficients.old) (product a b)) (formed_of result)
        patterns.old coefficients.old patterns.new coefficients.new }
{
    if counts[b] <= FEW_PLACES {
        term_product_by::<FEW_PLACES>(a, b, i, counts, patterns, coefficients)
    } else {
        term_product_by::<MOST_TERMS>(a, b, i, counts, patterns, coefficients)
    }
}

// Most products have a node of one term, and need no row of terms to be merged.
fn form_product(
    a: usize,
    b: usize,
    i: usize,
    counts: &[usize],
    patterns: &mut [u64],
    coefficients: &mut [i64],
) -> Option<usize>
    requires { Ready i counts.now patterns.old coefficients.old (product a b) }
    ensures { FormedAt i (node_formed (sums_at i counts.now patterns.old coefficients.old) (product a b)) (formed_of result)
        patterns.old coefficients.old patterns.new coefficients.new }
{
    if counts[a] == 1 {
        return term_product(a, b, i, counts, patterns, coefficients);
    }
    if counts[b] == 1 {
        return term_product(b, a, i, counts, patterns, coefficients);
    }
    if counts[a] <= FEW_TERMS && counts[b] <= FEW_TERMS {
        return product_by::<FEW_TERMS>(a, b, i, counts, patterns, coefficients);
    }
    product_by::<MOST_TERMS>(a, b, i, counts, patterns, coefficients)
}

// A power of an earlier node, by way of arrays of so many places for the base.
fn power_by<const PLACES: usize>(
    a: usize,
    e: u64,
    i: usize,
    counts: &[usize],
    patterns: &mut [u64],
    coefficients: &mut [i64],
) -> Option<usize>
    requires ready { Ready i counts.now patterns.old coefficients.old (power a e) }
    requires a_fits { get_or counts.now a 0 ≤ PLACES }
    requires places_le_most_terms { PLACES ≤ most_terms }
    ensures { FormedAt i (node_formed (sums_at i counts.now patterns.old coefficients.old) (power a e)) (formed_of result)
        patterns.old coefficients.old patterns.new coefficients.new }
{
    let mut sp = [0u64; PLACES];
    let mut sc = [0i64; PLACES];
    let n = counts[a];
    copy_operand(a, n, patterns, coefficients, &mut sp, &mut sc);
    let start = MOST_TERMS * i;
    let end = start + MOST_TERMS;
    sums::power(
        Terms::first(n, &sp, &sc),
        e,
        &mut patterns[start..end],
        &mut coefficients[start..end],
    )
}

fn form_power(
    a: usize,
    e: u64,
    i: usize,
    counts: &[usize],
    patterns: &mut [u64],
    coefficients: &mut [i64],
) -> Option<usize>
    requires { Ready i counts.now patterns.old coefficients.old (power a e) }
    ensures { FormedAt i (node_formed (sums_at i counts.now patterns.old coefficients.old) (power a e)) (formed_of result)
        patterns.old coefficients.old patterns.new coefficients.new }
{
    if counts[a] <= FEW_TERMS {
        power_by::<FEW_TERMS>(a, e, i, counts, patterns, coefficients)
    } else {
        power_by::<MOST_TERMS>(a, e, i, counts, patterns, coefficients)
    }
}

// The terms of node i: the part of both work areas that starts at 128 × i is lent on for them, whatever its kind.
// Asks that the node is one, the parts before it hold accepted sums, by their degrees and weights its own are within the limits, and both areas have room for its part.
pub fn form(
    kind: Kind,
    i: usize,
    counts: &[usize],
    patterns: &mut [u64],
    coefficients: &mut [i64],
) -> Option<usize>
    requires { Ready i counts.now patterns.old coefficients.old (kind_of kind) }
    ensures { FormedAt i (node_formed (sums_at i counts.now patterns.old coefficients.old) (kind_of kind)) (formed_of result)
        patterns.old coefficients.old patterns.new coefficients.new }
{
    let start = MOST_TERMS * i;
    let end = start + MOST_TERMS;
    match kind {
        Kind::Integer(n) => Some(sums::integer(
            n,
            &mut patterns[start..end],
            &mut coefficients[start..end],
        )),
        Kind::Variable(v) => Some(sums::variable(
            v,
            &mut patterns[start..end],
            &mut coefficients[start..end],
        )),
        Kind::Sum(a, b) => form_sum(a, b, i, counts, patterns, coefficients),
        Kind::Product(a, b) => form_product(a, b, i, counts, patterns, coefficients),
        Kind::Power(a, e) => form_power(a, e, i, counts, patterns, coefficients),
    }
}
