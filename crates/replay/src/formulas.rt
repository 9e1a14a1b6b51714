// Cases of typed formulas and of tables.
// The areas stay slices side by side, as the operations take them; each case reads its own fields and lends its own areas, which differ in their types.
ghost use Rattle.std.specs.Prelude.{◌≤◌, length, IfSome};
ghost use Rattle.replay.specs.Limits.{most_bytes, most_words, most_answer};

use crate::fields::Fields;
use crate::{MOST_ANSWER, MOST_BYTES, MOST_GIVEN, MOST_WORDS, areas, filling, telling};

// Each node takes so many places of a table.
const NODE_PLACES: usize = 3;

fn run_text(text: &[u8], table: &mut [i64], out: &mut [u8; MOST_ANSWER]) -> usize
    requires table_len_bound { length table.old ≤ most_words }
    ensures { result ≤ most_answer }
{
    filling::fill(table);
    let told = telling::answered(text::read_formula(text, table));
    telling::tell_result(told, NODE_PLACES, table, out)
}

// text BYTES LEN
pub(crate) fn text(mut fields: Fields, out: &mut [u8; MOST_ANSWER]) -> Option<usize>
    ensures { IfSome result (λ end. end ≤ most_answer) }
{
    let mut given = areas::zeroed::<u8, MOST_GIVEN>();
    let mut table = areas::zeroed::<i64, MOST_WORDS>();
    let typed = fields.values(&mut given)?;
    let length = fields.number(MOST_WORDS)?;
    fields.end()?;
    Some(run_text(&given[..typed], &mut table[..length], out))
}

fn run_simplify(
    table: &[i64],
    res: &mut [u8],
    patterns: &mut [u64],
    coefficients: &mut [i64],
    out: &mut [u8; MOST_ANSWER],
) -> usize
    requires res_len_bound { length res.old ≤ most_bytes }
    requires patterns_len_bound { length patterns.old ≤ most_words }
    requires coefficients_len_bound { length coefficients.old ≤ most_words }
    ensures { result ≤ most_answer }
{
    filling::fill(res);
    filling::fill(patterns);
    filling::fill(coefficients);
    let told = telling::answered(formula::simplify(table, patterns, coefficients, res));
    telling::tell_worked(told, res, patterns, coefficients, out)
}

// simplify WORDS LEN LEN LEN
pub(crate) fn simplify(mut fields: Fields, out: &mut [u8; MOST_ANSWER]) -> Option<usize>
    ensures { IfSome result (λ end. end ≤ most_answer) }
{
    let mut table = areas::zeroed::<i64, MOST_WORDS>();
    let mut area = areas::zeroed::<u8, MOST_BYTES>();
    let mut patterns = areas::zeroed::<u64, MOST_WORDS>();
    let mut coefficients = areas::zeroed::<i64, MOST_WORDS>();
    let count = fields.values(&mut table)?;
    let length = fields.number(MOST_BYTES)?;
    let p = fields.number(MOST_WORDS)?;
    let c = fields.number(MOST_WORDS)?;
    fields.end()?;
    Some(run_simplify(
        &table[..count],
        &mut area[..length],
        &mut patterns[..p],
        &mut coefficients[..c],
        out,
    ))
}
