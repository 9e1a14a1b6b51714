// The factors of a term: its absolute coefficient and its letters. Each function that writes answers the place after what it wrote. Area and place are two
// parameters: a struct that holds the lent area would have to say in each contract that it is still the same area.
ghost use Rattle.std.specs.Prelude.{◌≡◌, [], ◌∷◌, ◌+◌, ◌≤◌, ◌<◌, length, MatchOption};
ghost use Rattle.std.proofs.lemmas.List.Edits.{sets};
ghost use Rattle.algebra.specs.Limits.{variables, largest_degree};
ghost use Rattle.algebra.specs.Pattern.{exponent};
ghost use Rattle.algebra.specs.Word.{exponents, Valid};
ghost use Rattle.spelling.specs.Spelling.{powers, letter_text, more_powers, factors_text};
ghost use Rattle.spelling.specs.Inside.Code.{letters_from, NoneBefore};

use algebra::Pattern;
use numbers::decimal;

// A letter, with its exponent unless that is 1. The exponent has two digits at most. They are written here:
// with a call for them, writing took a fifth longer.
fn write_letter(area: &mut [u8], at: usize, v: u64, e: u64) -> usize
    requires v_lt_variables { v < variables }
    requires e_le_largest_degree { e ≤ largest_degree }
    requires e_in_bounds { at + length (letter_text v e) ≤ length area.old }
    ensures value { result ≡ at + length (letter_text v e) }
    ensures area_after { area.new ≡ sets area.old at (letter_text v e) }
{
    area[at] = b'a' + v as u8;
    let after = at + 1;
    if e == 1 {
        return after;
    }
    area[after] = b'^';
    let tens = after + 1;
    if e < 10 {
        area[tens] = b'0' + e as u8;
        return tens + 1;
    }
    area[tens] = b'0' + (e / 10) as u8;
    let ones = tens + 1;
    area[ones] = b'0' + (e % 10) as u8;
    ones + 1
}

// * and a letter, unless its exponent is 0.
fn write_joined(area: &mut [u8], at: usize, v: u64, e: u64) -> usize
    requires v_lt_variables { v < variables }
    requires e_le_largest_degree { e ≤ largest_degree }
    requires e_in_bounds { at + length (more_powers (powers v (e ∷ []))) ≤ length area.old }
    ensures value { result ≡ at + length (more_powers (powers v (e ∷ []))) }
    ensures area_after { area.new ≡ sets area.old at (more_powers (powers v (e ∷ []))) }
{
    if e == 0 {
        return at;
    }
    area[at] = b'*';
    write_letter(area, at + 1, v, e)
}

// The letters of a pattern from a variable on, each with * before it.
pub(crate) fn write_letters(area: &mut [u8], at: usize, pattern: Pattern, from: u64) -> usize
    requires valid { Valid pattern.0 }
    requires from_in_bounds { at + length (more_powers (letters_from pattern.0 from)) ≤ length area.old }
    ensures value { result ≡ at + length (more_powers (letters_from pattern.0 from)) }
    ensures area_after { area.new ≡ sets area.old at (more_powers (letters_from pattern.0 from)) }
{
    let mut place = at;
    for v in from..Pattern::VARIABLES {
        place = write_joined(area, place, v, pattern.exponent(v));
    }
    place
}

// The variable of a pattern's first letter.
fn first_letter(pattern: Pattern) -> Option<u64>
    ensures { MatchOption result (NoneBefore pattern.0 variables) (λ v. (v < variables) × (0 < exponent v (exponents pattern.0)) × NoneBefore pattern.0 v) }
{
    (0..Pattern::VARIABLES).find(|v| pattern.exponent(*v) > 0)
}

// A term without its sign, by its absolute coefficient. 1 is left out, unless there are no letters.
pub(crate) fn write_factors(area: &mut [u8], at: usize, size: u64, pattern: Pattern) -> usize
    requires valid { Valid pattern.0 }
    requires pattern_in_bounds { at + length (factors_text size (powers 0 (exponents pattern.0))) ≤ length area.old }
    ensures value { result ≡ at + length (factors_text size (powers 0 (exponents pattern.0))) }
    ensures area_after { area.new ≡ sets area.old at (factors_text size (powers 0 (exponents pattern.0))) }
{
    if size == 1 {
        if let Some(v) = first_letter(pattern) {
            let after = write_letter(area, at, v, pattern.exponent(v));
            return write_letters(area, after, pattern, v + 1);
        }
    }
    let after = decimal::write_decimal(area, at, size);
    write_letters(area, after, pattern, 0)
}
