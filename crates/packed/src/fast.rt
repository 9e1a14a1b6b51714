// Terms the fast way: they are copied as they stand, and then judged as packing judges them. Where that finds a fault they are read item by item, which says where it is.
// By index where a term takes little: zipped, two slices take some ten instructions more for each, as in `sums`.
ghost use Rattle.std.specs.Prelude.{◌≡◌, [], ◌≤◌, length, take};
ghost use Rattle.algebra.specs.Limits.{variables};
ghost use Rattle.numbers.specs.Inside.Read.{item_of};
ghost use Rattle.packed.specs.ReadSum.{read_terms};
ghost use Rattle.packed.specs.Inside.Arrays.{taken_into, Copies, Takes};
ghost use Rattle.packed.specs.Pack.{good_terms};

use crate::items;
use crate::reader::Reader;
use algebra::{LARGEST_WEIGHT, Pattern, Terms};
use numbers::Read;

// `count` terms as they stand, not judged: a code, and a byte for each exponent, as all good terms have it. It answers the place after them; `None` where they are not like that, and
// then nothing is said of the places.
fn copy_terms(
    bytes: &[u8],
    at: usize,
    count: usize,
    patterns: &mut [u64],
    coefficients: &mut [i64],
) -> Option<usize>
    requires count_in_bounds { count ≤ length patterns.old }
    requires count_in_bounds_2 { count ≤ length coefficients.old }
    ensures { Copies count bytes.now at result patterns.old coefficients.old patterns.new
        coefficients.new }
{
    let mut reader = Reader { bytes, at };
    for k in 0..count {
        let c = reader.item().ok()?;
        patterns[k] = reader.word()?;
        coefficients[k] = numbers::decode(c);
    }
    Some(reader.at)
}

// How many terms are good before the first bad one. Packing judges by it too.
// Asks that there are as many coefficients as patterns.
pub(crate) fn good_terms(terms: Terms) -> usize
    requires { length terms.coefficients.now ≡ length terms.patterns.now }
    ensures { result ≡ good_terms [] terms.entry.patterns.now terms.entry.coefficients.now }
{
    let mut weight: u64 = 0;
    // The degree and the word of the pattern before. At first they are those that any pattern stands after: no Option, so that one test judges degree and order.
    let mut degree = Pattern::LARGEST_DEGREE;
    let mut last = u64::MAX;
    for k in 0..terms.len() {
        let pattern = Pattern(terms.patterns[k]);
        let size = numbers::absolute(terms.coefficients[k]);
        if size == 0 {
            return k;
        }
        if size > LARGEST_WEIGHT - weight {
            return k;
        }
        let total = pattern.total();
        if total > degree {
            return k;
        }
        if total == degree {
            if pattern.0 >= last {
                return k;
            }
        }
        weight += size;
        degree = total;
        last = pattern.0;
    }
    terms.len()
}

// The terms that `copy_terms` copies, if all of them are good; else nothing is said of the places.
pub(crate) fn take_good(
    bytes: &[u8],
    at: usize,
    count: usize,
    patterns: &mut [u64],
    coefficients: &mut [i64],
) -> Option<usize>
    requires count_in_bounds { count ≤ length patterns.old }
    requires count_in_bounds_2 { count ≤ length coefficients.old }
    ensures { Takes count bytes.now at result patterns.old coefficients.old patterns.new
        coefficients.new }
{
    let end = copy_terms(bytes, at, count, patterns, coefficients)?;
    if good_terms(Terms::first(count, patterns, coefficients)) < count {
        return None;
    }
    Some(end)
}

// `count` terms at a place of the bytes, into the first places of two arrays.
pub(crate) fn take(
    bytes: &[u8],
    at: usize,
    count: usize,
    patterns: &mut [u64],
    coefficients: &mut [i64],
) -> Read
    requires count_in_bounds { count ≤ length patterns.old }
    requires count_in_bounds_2 { count ≤ length coefficients.old }
    ensures { (item_of result, patterns.new, coefficients.new)
        ≡ taken_into count (read_terms variables count [] bytes.now at) patterns.old coefficients.old }
{
    match take_good(bytes, at, count, patterns, coefficients) {
        Some(end) => Ok((count as u64, end)),
        None => items::take_each(bytes, at, count, patterns, coefficients),
    }
}
