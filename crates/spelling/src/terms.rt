// Terms with their signs, one after the other.
// Area and place are two parameters: a struct of both would have to say in each contract which area it holds.
ghost use Rattle.std.specs.Prelude.{◌≡◌, ◌+◌, ◌≤◌, length};
ghost use Rattle.std.proofs.lemmas.List.Edits.{sets};
ghost use Rattle.algebra.specs.Sum.{term};
ghost use Rattle.algebra.specs.Word.{exponents, terms, Valid, EachValid};
ghost use Rattle.answers.specs.Areas.{written};
ghost use Rattle.numbers.specs.Decimal.{decimal};
ghost use Rattle.spelling.specs.Spelling.{powers, next_sign, first_text, next_text, sum_text};
ghost use Rattle.spelling.specs.Inside.Code.{after_number};

use crate::letters;
use algebra::{Pattern, Terms};
use numbers::decimal;

// What stands before a term that is not the first.
fn next_sign(coefficient: i64) -> u8
    ensures { result ≡ next_sign coefficient }
{
    if coefficient >= 0 { b'+' } else { b'-' }
}

// Writes the first term of a sum, after a minus if it is negative. It answers the place after the term, and so does `write_next`.
fn write_first(area: &mut [u8], at: usize, coefficient: i64, pattern: Pattern) -> usize
    requires valid { Valid pattern.0 }
    requires pattern_in_bounds { at + length (first_text (term coefficient (exponents pattern.0))) ≤ length area.old }
    ensures value { result ≡ at + length (first_text (term coefficient (exponents pattern.0))) }
    ensures area_after { area.new ≡ sets area.old at (first_text (term coefficient (exponents pattern.0))) }
{
    let size = coefficient.unsigned_abs();
    if coefficient >= 0 {
        return letters::write_factors(area, at, size, pattern);
    }
    area[at] = b'-';
    letters::write_factors(area, at + 1, size, pattern)
}

// The number of a term that is not the first. Before it a place is left for the sign, unless 1 is not written: then letters follow, and the * of the first of
// them has that place. It answers where the letters begin.
fn write_number(area: &mut [u8], at: usize, size: u64, pattern: Pattern) -> usize
    requires valid { Valid pattern.0 }
    requires size_in_bounds { at + 1 + length (decimal size) ≤ length area.old }
    ensures { (result, area.new) ≡ after_number size (powers 0 (exponents pattern.0)) at area.old }
{
    // Two tests: joined by ||, the degree is taken of every term too whose number is not 1, by some four instructions more for each.
    if size != 1 {
        return decimal::write_decimal(area, at + 1, size);
    }
    if pattern.degree() == 0 {
        return decimal::write_decimal(area, at + 1, size);
    }
    at
}

// A further term. Its sign goes to its place last, and over the first * where 1 is not written: so letters are written in one way.
fn write_next(area: &mut [u8], at: usize, coefficient: i64, pattern: Pattern) -> usize
    requires valid { Valid pattern.0 }
    requires pattern_in_bounds { at + length (next_text (term coefficient (exponents pattern.0))) ≤ length area.old }
    ensures value { result ≡ at + length (next_text (term coefficient (exponents pattern.0))) }
    ensures area_after { area.new ≡ sets area.old at (next_text (term coefficient (exponents pattern.0))) }
{
    let after = write_number(area, at, coefficient.unsigned_abs(), pattern);
    let end = letters::write_letters(area, after, pattern, 0);
    area[at] = next_sign(coefficient);
    end
}

// The text of a sum, from the start of the area. It answers its length. The loop goes by index: zipped, the two slices take some twenty instructions more for
// each term.
pub(crate) fn write_sum(area: &mut [u8], sum: Terms) -> usize
    requires as_many { length sum.coefficients.now ≡ length sum.patterns.now }
    requires each_valid { EachValid sum.patterns.now }
    requires sum_in_bounds { length (sum_text (terms sum.patterns.now sum.coefficients.now)) ≤ length area.old }
    ensures value { result ≡ length (sum_text (terms sum.entry.patterns.now sum.entry.coefficients.now)) }
    ensures area_after { area.new ≡ written (sum_text (terms sum.entry.patterns.now sum.entry.coefficients.now)) area.old }
{
    if sum.patterns.is_empty() {
        area[0] = b'0';
        return 1;
    }
    let leading = sum.coefficients[0];
    let mut place = write_first(area, 0, leading, Pattern(sum.patterns[0]));
    for k in 1..sum.patterns.len() {
        let coefficient = sum.coefficients[k];
        place = write_next(area, place, coefficient, Pattern(sum.patterns[k]));
    }
    place
}
