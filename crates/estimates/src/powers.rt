// Tables of powers, for sums of many terms: a row for each variable, with the power e at place e of the row.
ghost use Rattle.std.specs.Prelude.{◌≤◌, ◌<◌, nat_abs, length};
ghost use Rattle.algebra.specs.Word.{exponents};
ghost use Rattle.estimates.specs.Inside.Powers.{Row, Rows, Under};

use crate::VARIABLES;
use crate::factors::Both;
use crate::readings::Readings;
use algebra::Pattern;

// The powers of one reading, up to `top`.
fn fill_row<const N: usize>(row: &mut [Both; N], factor: Both, top: usize)
    requires top_in_bounds { top < N }
    requires reading_bound { nat_abs factor.value ≤ factor.most }
    ensures { Row factor.most factor.value top row.new }
{
    let mut power = Both::of(1);
    for e in 0..top {
        power = power.times(factor);
        row[e + 1] = power;
    }
}

// A row for each reading, as far as its exponent goes in a pattern that has all of a sum's.
pub(crate) fn fill<const N: usize>(
    table: &mut [[Both; N]; VARIABLES],
    readings: Readings,
    used: Pattern,
)
    requires { Under N (exponents used.0) }
    ensures { Rows readings.entry.readings.now readings.entry.raised.now (exponents used.0) table.new }
{
    for v in 0..VARIABLES {
        let top = used.exponent(v as u64) as usize;
        fill_row(&mut table[v], readings.at(v), top);
    }
}
