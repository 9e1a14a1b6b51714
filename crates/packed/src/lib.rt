// Packed sums: read item by item, unpacked into two lent areas, and packed from them.
// Begin with specs/Packed.antt and specs/ReadSum.antt, then with `unpack` and `pack`. `reader` has the packed reader, through which `items` and `fast` read terms.
// What is written stays two slices, as C lends it: a struct of `&mut` slices would have to say in each contract where they point.
#![tactic(auto)]

ghost use Rattle.std.specs.Prelude.{◌≡◌, ◌≤◌, length, IfOk};
ghost use Rattle.algebra.specs.Limits.{variables, most_terms};
ghost use Rattle.answers.specs.Refusals.{SUM};
ghost use Rattle.answers.specs.Answers.{told, outcome};
ghost use Rattle.numbers.specs.Inside.Read.{item_of};
ghost use Rattle.packed.specs.ReadSum.{read_sum};
ghost use Rattle.packed.specs.Inside.Held.{read_count, read_rest, read_into, fault};
ghost use Rattle.packed.specs.Whole.{judged};
ghost use Rattle.packed.specs.Result.{held_into};
ghost use Rattle.packed.specs.Inside.Arrays.{whole_into};
ghost use Rattle.packed.specs.Unpack.{unpack};
ghost use Rattle.packed.specs.Pack.{pack};

use algebra::{MOST_TERMS, Pattern, Terms};
use answers::{Answer, Refusal, Refused, areas};
use numbers::{Fault, Read};
use reader::Reader;

mod fast;
mod items;
pub mod reader;
pub mod writer;

// A term takes ten bytes at most for its coefficient and one for each exponent, the count two.
pub const MOST_BYTES: usize = (10 + Pattern::VARIABLES as usize) * MOST_TERMS + 2;

// So many terms are few. Each operation that reads a packed sum chooses by it itself: a public function that is given the rest as a closure has no contract that
// leaves one outcome.
pub const FEW_TERMS: usize = 16;

// ---- What other operations read of packed sums.

// The number of terms of a packed sum at a place of the bytes, judged.
pub fn read_count(bytes: &[u8], at: usize) -> Read
    ensures value { item_of result ≡ read_count bytes.now at }
    ensures few { IfOk result (λ r. r.0 ≤ most_terms) }
{
    let mut reader = Reader { bytes, at };
    let count = reader.item()?;
    if count > MOST_TERMS as u64 {
        return Err(Fault::Bad(at));
    }
    Ok((count, reader.at))
}

// A packed sum at a place of the bytes, for lists of sums. The value is the number of terms; on a refusal the areas stay.
// Asks that both areas have 128 places.
pub fn read_sum(bytes: &[u8], at: usize, patterns: &mut [u64], coefficients: &mut [i64]) -> Read
    requires most_terms_in_bounds { most_terms ≤ length patterns.old }
    requires most_terms_in_bounds_2 { most_terms ≤ length coefficients.old }
    ensures { (item_of result, patterns.new, coefficients.new)
        ≡ read_into (read_sum variables bytes.now at) patterns.old coefficients.old }
{
    let (count, next) = read_count(bytes, at)?;
    let n = count as usize;
    let mut own_patterns = [0u64; MOST_TERMS];
    let mut own_coefficients = [0i64; MOST_TERMS];
    let item = fast::take(bytes, next, n, &mut own_patterns, &mut own_coefficients)?;
    patterns[..n].copy_from_slice(&own_patterns[..n]);
    coefficients[..n].copy_from_slice(&own_coefficients[..n]);
    Ok(item)
}

// A packed sum that was cut or is damaged is refused with SUM at its place. (A value is none of the two, and is not passed here.)
pub fn refused(item: Read) -> Answer
    ensures { told result ≡ fault SUM (item_of item) }
{
    match item {
        Ok((_, next)) => Err(Refusal::Sum.at(next)),
        Err(met) => Err(sum_at_fault(met)),
    }
}

// The same of a fault alone, for `map_err`. (It is no `From`: both types are other crates'.)
pub fn sum_at_fault(met: Fault) -> Refused
    ensures { told (Err result) ≡ fault SUM (item_of (Err met)) }
{
    match met {
        Fault::Cut(place) | Fault::Bad(place) => Refusal::Sum.at(place),
    }
}

// The `count` terms after a sum's count, which end with the bytes, into the first places of two arrays. On a refusal these places are cleared.
// Asks that the count is at most both lengths.
pub fn take_whole(
    bytes: &[u8],
    at: usize,
    count: usize,
    patterns: &mut [u64],
    coefficients: &mut [i64],
) -> Answer
    requires count_in_bounds { count ≤ length patterns.old }
    requires count_in_bounds_2 { count ≤ length coefficients.old }
    ensures { outcome (told result) (patterns.new, coefficients.new)
        ≡ whole_into count (judged SUM (read_rest variables count bytes.now at)) patterns.old coefficients.old }
{
    if let Some(end) = fast::take_good(bytes, at, count, patterns, coefficients) {
        if end == bytes.len() {
            return Ok(count);
        }
    }
    let (_, end) = items::take_each(bytes, at, count, patterns, coefficients).map_err(
        sum_at_fault,
    )?;
    if end < bytes.len() {
        patterns[..count].fill(0);
        coefficients[..count].fill(0);
        return Err(Refusal::Sum.at(end));
    }
    Ok(count)
}

// ---- The operations.

// The terms go through two arrays of N places: the lent areas are written when nothing can be refused any more.
fn unpack_by<const N: usize>(
    bytes: &[u8],
    at: usize,
    count: usize,
    patterns: &mut [u64],
    coefficients: &mut [i64],
) -> Answer
    requires places { N ≤ most_terms }
    requires count_in_bounds { count ≤ N }
    requires count_in_bounds_2 { count ≤ length patterns.old }
    requires count_in_bounds_3 { count ≤ length coefficients.old }
    ensures { outcome (told result) (patterns.new, coefficients.new)
        ≡ held_into (judged SUM (read_rest variables count bytes.now at)) patterns.old coefficients.old }
{
    let mut own_patterns = [0u64; N];
    let mut own_coefficients = [0i64; N];
    let n = take_whole(bytes, at, count, &mut own_patterns, &mut own_coefficients)?;
    areas::copy_words(patterns, &own_patterns, count);
    areas::copy_coefficients(coefficients, &own_coefficients, count);
    Ok(n)
}

// Few terms go through small arrays: to clear large ones would take longer than to read the terms.
pub fn unpack(bytes: &[u8], patterns: &mut [u64], coefficients: &mut [i64]) -> Answer
    ensures { outcome (told result) (patterns.new, coefficients.new)
        ≡ unpack bytes.now patterns.old coefficients.old }
{
    if patterns.len() < MOST_TERMS {
        return Err(Refusal::Room.at(0));
    }
    if coefficients.len() < MOST_TERMS {
        return Err(Refusal::Room.at(0));
    }
    let (number, next) = read_count(bytes, 0).map_err(sum_at_fault)?;
    let n = number as usize;
    if n <= FEW_TERMS {
        unpack_by::<FEW_TERMS>(bytes, next, n, patterns, coefficients)
    } else {
        unpack_by::<MOST_TERMS>(bytes, next, n, patterns, coefficients)
    }
}

// Every term is looked at before the first byte is written.
pub fn pack(count: usize, patterns: &[u64], coefficients: &[i64], res: &mut [u8]) -> Answer
    ensures { outcome (told result) res.new ≡ pack count patterns.now coefficients.now res.old }
{
    if res.len() < MOST_BYTES {
        return Err(Refusal::Room.at(0));
    }
    if count > MOST_TERMS {
        return Err(Refusal::Shape.at(0));
    }
    if count > patterns.len() {
        return Err(Refusal::Shape.at(0));
    }
    if count > coefficients.len() {
        return Err(Refusal::Shape.at(0));
    }
    let good = fast::good_terms(Terms::first(count, patterns, coefficients));
    if good < count {
        return Err(Refusal::Sum.at(good));
    }
    let length = writer::write_sum(res, 0, Terms::first(count, patterns, coefficients));
    Ok(length)
}
