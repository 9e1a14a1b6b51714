// Cases of operations whose one area takes bytes.
// Each case reads its own fields and calls its own operation: over a closure each would have to state what the answer shows, longer than the three lines.
ghost use Rattle.std.specs.Prelude.{◌≤◌, length, IfSome};
ghost use Rattle.replay.specs.Limits.{most_bytes, most_answer};

use crate::fields::Fields;
use crate::{MOST_ANSWER, MOST_BYTES, MOST_GIVEN, areas, filling, telling};

fn run_slope(packed: &[u8], variable: usize, res: &mut [u8], out: &mut [u8; MOST_ANSWER]) -> usize
    requires res_len_bound { length res.old ≤ most_bytes }
    ensures { result ≤ most_answer }
{
    filling::fill(res);
    let told = telling::answered(change::slope(packed, variable as u64, res));
    telling::tell_result(told, 1, res, out)
}

// slope BYTES N LEN
pub(crate) fn slope(mut fields: Fields, out: &mut [u8; MOST_ANSWER]) -> Option<usize>
    ensures { IfSome result (λ end. end ≤ most_answer) }
{
    let mut given = areas::zeroed::<u8, MOST_GIVEN>();
    let mut area = areas::zeroed::<u8, MOST_BYTES>();
    let packed = fields.values(&mut given)?;
    let variable = fields.number(usize::MAX)?;
    let length = fields.number(MOST_BYTES)?;
    fields.end()?;
    Some(run_slope(&given[..packed], variable, &mut area[..length], out))
}

fn run_estimate(
    packed: &[u8],
    readings: &[u8],
    tolerances: &[u8],
    res: &mut [u8],
    out: &mut [u8; MOST_ANSWER],
) -> usize
    requires res_len_bound { length res.old ≤ most_bytes }
    ensures { result ≤ most_answer }
{
    filling::fill(res);
    let told = telling::heard(router::reeveboom_estimate(packed, readings, tolerances, res));
    telling::tell_result(told, 1, res, out)
}

// estimate BYTES BYTES BYTES LEN
pub(crate) fn estimate(mut fields: Fields, out: &mut [u8; MOST_ANSWER]) -> Option<usize>
    ensures { IfSome result (λ end. end ≤ most_answer) }
{
    let mut given = areas::zeroed::<u8, MOST_GIVEN>();
    let mut area = areas::zeroed::<u8, MOST_BYTES>();
    // All fields of bytes go into one area, since a line has no more bytes than that.
    let packed = fields.values(&mut given)?;
    let (sum, rest) = given.split_at_mut(packed);
    let r = fields.values(rest)?;
    let (readings, rest) = rest.split_at_mut(r);
    let t = fields.values(rest)?;
    let length = fields.number(MOST_BYTES)?;
    fields.end()?;
    Some(run_estimate(sum, readings, &rest[..t], &mut area[..length], out))
}

fn run_write(packed: &[u8], res: &mut [u8], out: &mut [u8; MOST_ANSWER]) -> usize
    requires res_len_bound { length res.old ≤ most_bytes }
    ensures { result ≤ most_answer }
{
    filling::fill(res);
    let told = telling::answered(spelling::write_text(packed, res));
    telling::tell_result(told, 1, res, out)
}

// write BYTES LEN
pub(crate) fn write(mut fields: Fields, out: &mut [u8; MOST_ANSWER]) -> Option<usize>
    ensures { IfSome result (λ end. end ≤ most_answer) }
{
    let mut given = areas::zeroed::<u8, MOST_GIVEN>();
    let mut area = areas::zeroed::<u8, MOST_BYTES>();
    let packed = fields.values(&mut given)?;
    let length = fields.number(MOST_BYTES)?;
    fields.end()?;
    Some(run_write(&given[..packed], &mut area[..length], out))
}
