// What the router asks: the value of a packed sum at its readings, and a bound on how far the true value is from it.
// Begin with specs/Estimate.antt, then with `estimate`; `estimates` has what finds estimate and margin.
#![tactic(auto)]

ghost use Rattle.std.specs.Prelude.{◌≡◌, ◌≤◌, length};
ghost use Rattle.algebra.specs.Limits.{largest_weight, most_terms};
ghost use Rattle.algebra.specs.Word.{terms};
ghost use Rattle.answers.specs.Answers.{told, outcome};
ghost use Rattle.answers.specs.Areas.{written};
ghost use Rattle.answers.specs.Host.{hosted, narrow_unit};
ghost use Rattle.numbers.specs.Item.{Item.got};
ghost use Rattle.packed.specs.Inside.Held.{read_count};
ghost use Rattle.estimates.specs.Range.{judge_terms};
ghost use Rattle.router.specs.Estimate.{answer_bytes, answer_of, answer_into, estimate};

use algebra::{MOST_TERMS, Terms};
use answers::{Answer, NARROW_UNIT, Refusal};
use estimates::{Estimate, VARIABLES, readings as given};
use numbers::bytes::WHOLE_BYTES;
use packed::FEW_TERMS;

// What the readings take, and what the tolerances take.
pub const READING_BYTES: usize = given::READING_BYTES;

// The estimate and its margin.
pub const ANSWER_BYTES: usize = WHOLE_BYTES + WHOLE_BYTES;

// One number after the other.
fn write_answer(found: Estimate, answer: &mut [u8])
    requires margin_le_largest_weight { found.margin ≤ largest_weight }
    requires answer_bytes_in_bounds { answer_bytes ≤ length answer.old }
    ensures { answer.new ≡ written (answer_of found.value found.margin) answer.old }
{
    numbers::bytes::write_whole(answer, 0, found.value);
    numbers::bytes::write_whole(answer, WHOLE_BYTES, found.margin as i64);
}

// The estimate of the sum that two slices hold. Readings and tolerances are judged first, and nothing is written before the range is.
fn estimate_terms(sum: Terms, readings: &[u8], tolerances: &[u8], answer: &mut [u8]) -> Answer
    requires coefficients_len { length sum.coefficients.now ≡ length sum.patterns.now }
    requires answer_bytes_in_bounds { answer_bytes ≤ length answer.old }
    ensures { outcome (told result) answer.new
        ≡ answer_into (judge_terms (terms sum.entry.patterns.now sum.entry.coefficients.now) readings.now tolerances.now)
        answer.old }
{
    if readings.len() != READING_BYTES || tolerances.len() != READING_BYTES {
        return Err(Refusal::Reading.at(0));
    }
    let mut measured = [0i64; VARIABLES];
    let mut allowed = [0i64; VARIABLES];
    given::read_numbers(readings, &mut measured);
    given::read_numbers(tolerances, &mut allowed);
    let good = given::before_negative(&allowed);
    if good < VARIABLES {
        return Err(Refusal::Reading.at(good));
    }
    let found = estimates::estimate_at(sum, &measured, &allowed).ok_or(Refusal::Range.at(0))?;
    write_answer(found, answer);
    Ok(ANSWER_BYTES)
}

// The estimate of a packed sum, whose `count` terms go through two arrays of N places.
fn estimate_by<const N: usize>(
    sum: &[u8],
    at: usize,
    count: usize,
    readings: &[u8],
    tolerances: &[u8],
    answer: &mut [u8],
) -> Answer
    requires places { N ≤ most_terms }
    requires count_in_bounds { count ≤ N }
    requires counted { read_count sum.now 0 ≡ got count at }
    requires answer_bytes_in_bounds { answer_bytes ≤ length answer.old }
    ensures { outcome (told result) answer.new
        ≡ estimate sum.now readings.now tolerances.now answer.old }
{
    let mut patterns = [0u64; N];
    let mut coefficients = [0i64; N];
    packed::take_whole(sum, at, count, &mut patterns, &mut coefficients)?;
    let held = Terms::first(count, &patterns, &coefficients);
    estimate_terms(held, readings, tolerances, answer)
}

// The estimate of a packed sum at the readings, and its margin. Few terms go through small arrays, as in unpacking.
pub fn estimate(sum: &[u8], readings: &[u8], tolerances: &[u8], answer: &mut [u8]) -> Answer
    ensures { outcome (told result) answer.new
        ≡ estimate sum.now readings.now tolerances.now answer.old }
{
    if answer.len() < ANSWER_BYTES {
        return Err(Refusal::Room.at(0));
    }
    let (number, next) = packed::read_count(sum, 0).map_err(packed::sum_at_fault)?;
    let n = number as usize;
    if n <= FEW_TERMS {
        estimate_by::<FEW_TERMS>(sum, next, n, readings, tolerances, answer)
    } else {
        estimate_by::<MOST_TERMS>(sum, next, n, readings, tolerances, answer)
    }
}

// The same for a C host: 16 if it is done, else refusal × 65,536 + place. `router_c` exports it to C.
pub fn reeveboom_estimate(sum: &[u8], readings: &[u8], tolerances: &[u8], answer: &mut [u8]) -> u64
    ensures { (result, answer.new)
        ≡ hosted narrow_unit (estimate sum.now readings.now tolerances.now answer.old) }
{
    answers::for_host(estimate(sum, readings, tolerances, answer), NARROW_UNIT)
}
