// What an operation answered, and what has become of the areas that it was lent.
ghost use Rattle.std.specs.Prelude.{◌≡◌, ◌+◌, ◌*◌, ◌≤◌, length};
ghost use Rattle.answers.specs.Answers.{told as answer_told};
ghost use Rattle.answers.specs.Host.{heard as heard_told};
ghost use Rattle.replay.specs.Limits.{most_bytes, most_words, most_answer};
ghost use Rattle.replay.specs.Telling.{by_number, told_as, Shows};

use crate::places::Place;
use crate::{MOST_ANSWER, filling, lines};
use answers::{Answer, Refused};

// A refusal as a C host hears it: its number, and its place.
#[derive(Clone, Copy, Debug, PartialEq, Eq)]
pub struct HostRefusal {
    pub refusal: usize,
    pub place: usize,
}

impl From<Refused> for HostRefusal {
    ghost from_gives = { λ refused result. result ≡ by_number refused };

    fn from(refused: Refused) -> HostRefusal {
        HostRefusal {
            refusal: refused.refusal.number(),
            place: refused.place,
        }
    }
}

// The number returned, or the refusal.
pub type Told = Result<usize, HostRefusal>;

pub(crate) fn answered(answer: Answer) -> Told
    ensures { told_as result ≡ answer_told answer }
{
    answer.map_err(HostRefusal::from)
}

// (What compares has numbers of its own.) A refusal's number is a multiple of this: of the first if the estimate refuses, else of the second.
const NARROW_UNIT: u64 = 65536;

const WIDE_UNIT: u64 = 4294967296;

// The number that a C host gets.
pub(crate) fn heard(number: u64) -> Told
    ensures { told_as result ≡ heard_told number }
{
    if number < NARROW_UNIT {
        return Ok(number as usize);
    }
    let unit = if number < WIDE_UNIT {
        NARROW_UNIT
    } else {
        WIDE_UNIT
    };
    Err(HostRefusal {
        refusal: (number / unit) as usize,
        place: (number % unit) as usize,
    })
}

// A line's beginning, for an operation whose result is in one area: so many places for each 1 of the number returned.
fn tell_area<T: Place>(told: Told, each: usize, area: &[T], out: &mut [u8]) -> usize
    requires area_len_bound { length area.now ≤ most_bytes }
    requires digits_bound { T.DIGITS * length area.now ≤ 16 * most_words }
    requires shows { Shows each (length area.now) (told_as told) }
    requires most_answer_in_bounds { most_answer ≤ length out.old }
    ensures { result + 16 ≤ most_answer }
{
    match told {
        Ok(n) => {
            let count = each * n;
            let at = lines::done(out, n);
            let next = lines::values(out, at, &area[..count]);
            lines::fate(out, next, filling::result_fate(area, count))
        }
        Err(refused) => {
            let at = lines::refused(out, refused);
            lines::fate(out, at, filling::result_fate(area, 0))
        }
    }
}

// The line of an operation that is lent no other area.
pub(crate) fn tell_result<T: Place>(
    told: Told,
    each: usize,
    area: &[T],
    out: &mut [u8; MOST_ANSWER],
) -> usize
    requires area_len_bound { length area.now ≤ most_bytes }
    requires digits_bound { T.DIGITS * length area.now ≤ 16 * most_words }
    requires shows { Shows each (length area.now) (told_as told) }
    ensures { result ≤ most_answer }
{
    let at = tell_area(told, each, area, out);
    lines::end(out, at)
}

// The line of an operation with work areas.
pub(crate) fn tell_worked(
    told: Told,
    res: &[u8],
    patterns: &[u64],
    coefficients: &[i64],
    out: &mut [u8; MOST_ANSWER],
) -> usize
    requires res_len_bound { length res.now ≤ most_bytes }
    requires shows { Shows 1 (length res.now) (told_as told) }
    requires patterns_len_bound { length patterns.now ≤ most_words }
    requires coefficients_len_bound { length coefficients.now ≤ most_words }
    ensures { result ≤ most_answer }
{
    let at = tell_area(told, 1, res, out);
    let after = lines::fate(out, at, filling::work_fate(patterns));
    let last = lines::fate(out, after, filling::work_fate(coefficients));
    lines::end(out, last)
}

// The line of an operation that was lent areas for terms: those of the first n are written.
fn tell_fates(patterns: &[u64], coefficients: &[i64], n: usize, out: &mut [u8], at: usize) -> usize
    requires patterns_len_bound { length patterns.now ≤ most_words }
    requires coefficients_len_bound { length coefficients.now ≤ most_words }
    requires at_in_bounds { at + 15 ≤ length out.old }
    ensures { result ≤ at + 15 }
{
    let after = lines::fate(out, at, filling::result_fate(patterns, n));
    let last = lines::fate(out, after, filling::result_fate(coefficients, n));
    lines::end(out, last)
}

pub(crate) fn tell_terms(
    told: Told,
    patterns: &[u64],
    coefficients: &[i64],
    out: &mut [u8; MOST_ANSWER],
) -> usize
    requires patterns_len_bound { length patterns.now ≤ most_words }
    requires coefficients_len_bound { length coefficients.now ≤ most_words }
    requires patterns_show { Shows 1 (length patterns.now) (told_as told) }
    requires coefficients_show { Shows 1 (length coefficients.now) (told_as told) }
    ensures { result ≤ most_answer }
{
    match told {
        Ok(n) => {
            let at = lines::done(out, n);
            let next = lines::values(out, at, &patterns[..n]);
            let last = lines::values(out, next, &coefficients[..n]);
            tell_fates(patterns, coefficients, n, out, last)
        }
        Err(refused) => {
            let at = lines::refused(out, refused);
            tell_fates(patterns, coefficients, 0, out, at)
        }
    }
}
