// One case: its line is taken for the operation that it names.
ghost use Rattle.std.specs.Prelude.{◌≤◌, length, IfSome};
ghost use Rattle.replay.specs.Limits.{most_answer};

use crate::fields::Fields;
use crate::{LONGEST_LINE, MOST_ANSWER, changes, formulas, lines, packing, results};

// Writes the answer to a case at the start of an area, and answers its length.
fn answer_case(line: &[u8], out: &mut [u8; MOST_ANSWER]) -> Option<usize>
    ensures { IfSome result (λ end. end ≤ most_answer) }
{
    if line.len() > LONGEST_LINE {
        return None;
    }
    let mut fields = Fields::of(line);
    match fields.next_field()? {
        b"text" => formulas::text(fields, out),
        b"simplify" => formulas::simplify(fields, out),
        b"unpack" => packing::unpack(fields, out),
        b"pack" => packing::pack(fields, out),
        b"slope" => results::slope(fields, out),
        b"substitute" => changes::substitute(fields, out),
        b"estimate" => results::estimate(fields, out),
        b"write" => results::write(fields, out),
        _ => None,
    }
}

// The same for any line.
pub(crate) fn answer(line: &[u8], out: &mut [u8; MOST_ANSWER]) -> usize
    ensures { result ≤ most_answer }
{
    match answer_case(line, out) {
        Some(end) => end,
        None => lines::unknown(out),
    }
}
