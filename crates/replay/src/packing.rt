// Cases of unpacking and of packing.
// The areas stay slices side by side, as the operations take them; each case reads its own fields and lends its own areas, which differ in their types.
ghost use Rattle.std.specs.Prelude.{◌≤◌, length, IfSome};
ghost use Rattle.replay.specs.Limits.{most_bytes, most_words, most_answer};

use crate::fields::Fields;
use crate::{MOST_ANSWER, MOST_BYTES, MOST_GIVEN, MOST_WORDS, areas, filling, telling};

fn run_unpack(
    bytes: &[u8],
    patterns: &mut [u64],
    coefficients: &mut [i64],
    out: &mut [u8; MOST_ANSWER],
) -> usize
    requires patterns_len_bound { length patterns.old ≤ most_words }
    requires coefficients_len_bound { length coefficients.old ≤ most_words }
    ensures { result ≤ most_answer }
{
    filling::fill(patterns);
    filling::fill(coefficients);
    let told = telling::answered(packed::unpack(bytes, patterns, coefficients));
    telling::tell_terms(told, patterns, coefficients, out)
}

// unpack BYTES LEN LEN
pub(crate) fn unpack(mut fields: Fields, out: &mut [u8; MOST_ANSWER]) -> Option<usize>
    ensures { IfSome result (λ end. end ≤ most_answer) }
{
    let mut given = areas::zeroed::<u8, MOST_GIVEN>();
    let mut patterns = areas::zeroed::<u64, MOST_WORDS>();
    let mut coefficients = areas::zeroed::<i64, MOST_WORDS>();
    let packed = fields.values(&mut given)?;
    let p = fields.number(MOST_WORDS)?;
    let c = fields.number(MOST_WORDS)?;
    fields.end()?;
    Some(run_unpack(
        &given[..packed],
        &mut patterns[..p],
        &mut coefficients[..c],
        out,
    ))
}

fn run_pack(
    count: usize,
    patterns: &[u64],
    coefficients: &[i64],
    res: &mut [u8],
    out: &mut [u8; MOST_ANSWER],
) -> usize
    requires res_len_bound { length res.old ≤ most_bytes }
    ensures { result ≤ most_answer }
{
    filling::fill(res);
    let told = telling::answered(packed::pack(count, patterns, coefficients, res));
    telling::tell_result(told, 1, res, out)
}

// pack N WORDS WORDS LEN
pub(crate) fn pack(mut fields: Fields, out: &mut [u8; MOST_ANSWER]) -> Option<usize>
    ensures { IfSome result (λ end. end ≤ most_answer) }
{
    let mut patterns = areas::zeroed::<u64, MOST_WORDS>();
    let mut coefficients = areas::zeroed::<i64, MOST_WORDS>();
    let mut area = areas::zeroed::<u8, MOST_BYTES>();
    let count = fields.number(usize::MAX)?;
    let p = fields.values(&mut patterns)?;
    let c = fields.values(&mut coefficients)?;
    let length = fields.number(MOST_BYTES)?;
    fields.end()?;
    Some(run_pack(
        count,
        &patterns[..p],
        &coefficients[..c],
        &mut area[..length],
        out,
    ))
}
