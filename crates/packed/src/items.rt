// Terms read item by item: the first fault is found where it stands. A fault that is met is returned at once.
// Bytes and a place are two parameters: lent a reader, each contract would have to say that its bytes stay. Two areas and a count go together: by one length each, two lengths would have to be said equal.
ghost use Rattle.std.specs.Prelude.{◌≡◌, [], ◌≤◌, length};
ghost use Rattle.algebra.specs.Limits.{variables, largest_weight};
ghost use Rattle.algebra.specs.Word.{exponents, Valid};
ghost use Rattle.numbers.specs.Item.{mapped};
ghost use Rattle.numbers.specs.Code.{code};
ghost use Rattle.numbers.specs.Inside.Read.{item_of};
ghost use Rattle.packed.specs.ReadSum.{read_coefficient, read_exponents, read_terms};
ghost use Rattle.packed.specs.Inside.Last.{LastValid, may_follow};
ghost use Rattle.packed.specs.Inside.Arrays.{word_for, Holds, taken_into};

use crate::reader::Reader;
use algebra::{LARGEST_WEIGHT, Pattern};
use numbers::{Fault, Read};

// A coefficient, judged at once: `weight` is that of the terms before. The value is its code.
fn read_coefficient(bytes: &[u8], at: usize, weight: u64) -> Read
    requires { weight ≤ largest_weight }
    ensures { item_of result ≡ mapped code (read_coefficient weight bytes.now at) }
{
    let mut reader = Reader { bytes, at };
    let c = reader.item()?;
    let size = numbers::absolute(numbers::decode(c));
    if size == 0 {
        return Err(Fault::Bad(at));
    }
    if size > LARGEST_WEIGHT - weight {
        return Err(Fault::Bad(at));
    }
    Ok((c, reader.at))
}

// The powers of the first variables, so many as `powers` says; the others are 0. The value is the pattern's word.
fn read_exponents(bytes: &[u8], at: usize, powers: u64) -> Read
    requires { powers ≤ variables }
    ensures { item_of result ≡ mapped word_for (read_exponents powers 0 bytes.now at) }
{
    let mut pattern = Pattern::empty();
    let mut degree: u64 = 0;
    let mut reader = Reader { bytes, at };
    for v in 0..powers {
        let place = reader.at;
        let e = reader.item()?;
        if e > Pattern::LARGEST_DEGREE - degree {
            return Err(Fault::Bad(place));
        }
        pattern = pattern.product(Pattern::power(v, e));
        degree += e;
    }
    Ok((pattern.0, reader.at))
}

// Whether a pattern stands strictly after the one before. The first of all has none before it.
fn stands_after(last: Option<Pattern>, pattern: Pattern) -> bool
    requires valid { LastValid last }
    requires valid_2 { Valid pattern.0 }
    ensures { result ≡ may_follow last (exponents pattern.0) }
{
    match last {
        Some(before) => before.compare(pattern).is_lt(),
        None => true,
    }
}

// `count` terms of `powers` exponents each, into the first places of two arrays. What a refusal leaves in these places is not said: `take_each` clears them.
fn take_terms(
    bytes: &[u8],
    at: usize,
    powers: u64,
    count: usize,
    patterns: &mut [u64],
    coefficients: &mut [i64],
) -> Read
    requires powers_le_variables { powers ≤ variables }
    requires count_in_bounds { count ≤ length patterns.old }
    requires count_in_bounds_2 { count ≤ length coefficients.old }
    ensures result_value { item_of result ≡ mapped length (read_terms powers count [] bytes.now at) }
    ensures holds { Holds count (read_terms powers count [] bytes.now at) patterns.old coefficients.old patterns.new
        coefficients.new }
{
    let mut place = at;
    let mut weight: u64 = 0;
    let mut last = None;
    for k in 0..count {
        let (c, next) = read_coefficient(bytes, place, weight)?;
        let (w, end) = read_exponents(bytes, next, powers)?;
        let pattern = Pattern(w);
        if !stands_after(last, pattern) {
            return Err(Fault::Bad(place));
        }
        let coefficient = numbers::decode(c);
        patterns[k] = w;
        coefficients[k] = coefficient;
        weight += numbers::absolute(coefficient);
        last = Some(pattern);
        place = end;
    }
    Ok((count as u64, place))
}

// The same for as many exponents as there are variables; and on a fault the places are cleared.
pub(crate) fn take_each(
    bytes: &[u8],
    at: usize,
    count: usize,
    patterns: &mut [u64],
    coefficients: &mut [i64],
) -> Read
    requires count_in_bounds { count ≤ length patterns.old }
    requires count_in_bounds_2 { count ≤ length coefficients.old }
    ensures { (item_of result, patterns.new, coefficients.new)
        ≡ taken_into count (read_terms variables count [] bytes.now at) patterns.old coefficients.old }
{
    let item = take_terms(bytes, at, Pattern::VARIABLES, count, patterns, coefficients);
    if item.is_err() {
        patterns[..count].fill(0);
        coefficients[..count].fill(0);
    }
    item
}
