// Cases of substitution.
// The areas stay slices side by side, as the operations take them; each case reads its own fields and lends its own areas, which differ in their types.
ghost use Rattle.std.specs.Prelude.{◌≤◌, length, IfSome};
ghost use Rattle.replay.specs.Limits.{most_bytes, most_words, most_answer};

use crate::fields::Fields;
use crate::{MOST_ANSWER, MOST_BYTES, MOST_GIVEN, MOST_WORDS, areas, filling, telling};

fn run_substitute(
    packed: &[u8],
    list: &[u8],
    res: &mut [u8],
    patterns: &mut [u64],
    coefficients: &mut [i64],
    out: &mut [u8; MOST_ANSWER],
) -> usize
    requires res_len_bound { length res.old ≤ most_bytes }
    requires patterns_len_bound { length patterns.old ≤ most_words }
    requires coefficients_len_bound { length coefficients.old ≤ most_words }
    ensures { result ≤ most_answer }
{
    filling::fill(res);
    filling::fill(patterns);
    filling::fill(coefficients);
    let told = telling::answered(change::substitute(packed, list, patterns, coefficients, res));
    telling::tell_worked(told, res, patterns, coefficients, out)
}

// substitute BYTES BYTES LEN LEN LEN
pub(crate) fn substitute(mut fields: Fields, out: &mut [u8; MOST_ANSWER]) -> Option<usize>
    ensures { IfSome result (λ end. end ≤ most_answer) }
{
    let mut given = areas::zeroed::<u8, MOST_GIVEN>();
    let mut area = areas::zeroed::<u8, MOST_BYTES>();
    let mut patterns = areas::zeroed::<u64, MOST_WORDS>();
    let mut coefficients = areas::zeroed::<i64, MOST_WORDS>();
    // Both fields of bytes go into one area, since a line has no more bytes than that.
    let packed = fields.values(&mut given)?;
    let (sum, rest) = given.split_at_mut(packed);
    let pairs = fields.values(rest)?;
    let length = fields.number(MOST_BYTES)?;
    let p = fields.number(MOST_WORDS)?;
    let c = fields.number(MOST_WORDS)?;
    fields.end()?;
    Some(run_substitute(
        sum,
        &rest[..pairs],
        &mut area[..length],
        &mut patterns[..p],
        &mut coefficients[..c],
        out,
    ))
}
