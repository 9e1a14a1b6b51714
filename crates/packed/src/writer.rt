// Writing packed sums.
// Area and place are two parameters: a struct of both would have to say in each contract which area it holds.
ghost use Rattle.std.specs.Prelude.{◌≡◌, ◌+◌, ◌≤◌, length};
ghost use Rattle.std.proofs.lemmas.List.Edits.{sets};
ghost use Rattle.algebra.specs.Word.{exponents, terms, Valid, EachValid};
ghost use Rattle.packed.specs.Packed.{exponent_bytes, packed};

use algebra::{Pattern, Terms};

// The exponents of a pattern, one after the other. None is above 60, so each takes one byte.
fn write_exponents(area: &mut [u8], at: usize, pattern: Pattern) -> usize
    requires valid { Valid pattern.0 }
    requires pattern_in_bounds { at + length (exponent_bytes (exponents pattern.0)) ≤ length area.old }
    ensures value { result ≡ at + length (exponent_bytes (exponents pattern.0)) }
    ensures area_after { area.new ≡ sets area.old at (exponent_bytes (exponents pattern.0)) }
{
    numbers::bytes::write_bytes(area, at, &pattern.0.to_be_bytes())
}

// Writes a packed sum at a place of an area, and answers the place after it. Its patterns are within the limits.
// Asks that there are as many coefficients as patterns, the words are valid, and the sum's bytes fit at their place.
pub fn write_sum(area: &mut [u8], at: usize, sum: Terms) -> usize
    requires as_many { length sum.coefficients.now ≡ length sum.patterns.now }
    requires each_valid { EachValid sum.patterns.now }
    requires room { at + length (packed (terms sum.patterns.now sum.coefficients.now)) ≤ length area.old }
    ensures value { result ≡ at + length (packed (terms sum.entry.patterns.now sum.entry.coefficients.now)) }
    ensures area_after { area.new ≡ sets area.old at (packed (terms sum.entry.patterns.now sum.entry.coefficients.now)) }
{
    let mut place = numbers::write_number(area, at, sum.len() as u64);
    for (&pattern, &coefficient) in sum.patterns.iter().zip(sum.coefficients) {
        place = numbers::write_number(area, place, numbers::code(coefficient));
        place = write_exponents(area, place, Pattern(pattern));
    }
    place
}
