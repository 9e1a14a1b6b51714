// The lines of a sum and of a refusal, written from the start of an area, and their parts at a place of it.
// Each function answers the place after what it wrote.
// Area and place are two parameters: a struct of both would have to say in each contract which area it holds.
ghost use Rattle.std.specs.Prelude.{◌≡◌, ◌++◌, ◌+◌, ◌≤◌, length};
ghost use Rattle.std.proofs.lemmas.List.Edits.{sets};
ghost use Rattle.algebra.specs.Sum.{term};
ghost use Rattle.algebra.specs.Word.{exponents, terms};
ghost use Rattle.answers.specs.Areas.{written};
ghost use Rattle.answers.specs.Refusals.{number};
ghost use Rattle.numbers.specs.Decimal.{decimal};
ghost use Rattle.listing.specs.Lines.{exponents_line, term_line, sum_lines, refusal_line};

use algebra::{Pattern, Terms};
use answers::Refused;
use numbers::{bytes, decimal};

// A word, and a number after it.
fn write_numbered(area: &mut [u8], at: usize, word: &[u8], n: u64) -> usize
    requires { at + length (word.now ++ decimal n) ≤ length area.old }
    ensures value { result ≡ at + length (word.now ++ decimal n) }
    ensures area_after { area.new ≡ sets area.old at (word.now ++ decimal n) }
{
    let after = bytes::write_bytes(area, at, word);
    decimal::write_decimal(area, after, n)
}

// A blank and an exponent for each variable, and the end of the line.
fn write_exponents(area: &mut [u8], at: usize, pattern: Pattern) -> usize
    requires { at + length (exponents_line (exponents pattern.0)) ≤ length area.old }
    ensures value { result ≡ at + length (exponents_line (exponents pattern.0)) }
    ensures area_after { area.new ≡ sets area.old at (exponents_line (exponents pattern.0)) }
{
    let mut place = at;
    for v in 0..Pattern::VARIABLES {
        area[place] = b' ';
        place = decimal::write_decimal(area, place + 1, pattern.exponent(v));
    }
    area[place] = b'\n';
    place + 1
}

// A term's coefficient and its exponents.
fn write_term(area: &mut [u8], at: usize, coefficient: i64, pattern: Pattern) -> usize
    requires { at + length (term_line (term coefficient (exponents pattern.0))) ≤ length area.old }
    ensures value { result ≡ at + length (term_line (term coefficient (exponents pattern.0))) }
    ensures area_after { area.new ≡ sets area.old at (term_line (term coefficient (exponents pattern.0))) }
{
    let after = decimal::write_signed(area, at, coefficient);
    write_exponents(area, after, pattern)
}

pub(crate) fn write_sum(area: &mut [u8], sum: Terms) -> usize
    requires as_many { length sum.patterns.now ≡ length sum.coefficients.now }
    requires sum_in_bounds { length (sum_lines (terms sum.patterns.now sum.coefficients.now)) ≤ length area.old }
    ensures value { result ≡ length (sum_lines (terms sum.entry.patterns.now sum.entry.coefficients.now)) }
    ensures area_after { area.new ≡ written (sum_lines (terms sum.entry.patterns.now sum.entry.coefficients.now)) area.old }
{
    let first = write_numbered(area, 0, b"terms ", sum.len() as u64);
    area[first] = b'\n';
    let mut place = first + 1;
    for (&pattern, &coefficient) in sum.patterns.iter().zip(sum.coefficients) {
        place = write_term(area, place, coefficient, Pattern(pattern));
    }
    place
}

pub(crate) fn write_refusal(area: &mut [u8], refused: Refused) -> usize
    requires { length (refusal_line (number refused.refusal) refused.place) ≤ length area.old }
    ensures value { result ≡ length (refusal_line (number refused.refusal) refused.place) }
    ensures area_after { area.new ≡ written (refusal_line (number refused.refusal) refused.place) area.old }
{
    let told = write_numbered(area, 0, b"refused ", refused.refusal.number() as u64);
    let end = write_numbered(area, told, b" at ", refused.place as u64);
    area[end] = b'\n';
    end + 1
}
