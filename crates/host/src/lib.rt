// Every operation, for a C host: each function does nothing but call the operation, and gives its answer as one number.
// Begin with `hosted` in specs/Host.antt of `answers`, then with any of the functions; `host_c` exports them to C.
#![tactic(auto)]

ghost use Rattle.std.specs.Prelude.{◌≡◌};
ghost use Rattle.answers.specs.Host.{hosted, narrow_unit, wide_unit};
ghost use Rattle.text.specs.Text.{read_formula};
ghost use Rattle.formula.specs.Simplify.{simplify};
ghost use Rattle.packed.specs.Unpack.{unpack};
ghost use Rattle.packed.specs.Pack.{pack};
ghost use Rattle.change.specs.Slope.{slope};
ghost use Rattle.change.specs.Substitute.{substitute};
ghost use Rattle.router.specs.Estimate as router;
ghost use Rattle.spelling.specs.WriteText.{write_text};

use answers::{WIDE_UNIT, for_host};

pub fn reeveboom_text(text: &[u8], table: &mut [i64]) -> u64
    ensures { (result, table.new) ≡ hosted wide_unit (read_formula text.now table.old) }
{
    for_host(text::read_formula(text, table), WIDE_UNIT)
}

// The result area comes before the work areas here, and after them in the operation.
pub fn reeveboom_simplify(
    table: &[i64],
    res: &mut [u8],
    patterns: &mut [u64],
    coefficients: &mut [i64],
) -> u64
    ensures { (result, (patterns.new, coefficients.new, res.new))
        ≡ hosted wide_unit (simplify table.now patterns.old coefficients.old res.old) }
{
    for_host(
        formula::simplify(table, patterns, coefficients, res),
        WIDE_UNIT,
    )
}

pub fn reeveboom_unpack(sum: &[u8], patterns: &mut [u64], coefficients: &mut [i64]) -> u64
    ensures { (result, (patterns.new, coefficients.new))
        ≡ hosted wide_unit (unpack sum.now patterns.old coefficients.old) }
{
    for_host(packed::unpack(sum, patterns, coefficients), WIDE_UNIT)
}

pub fn reeveboom_pack(count: u64, patterns: &[u64], coefficients: &[i64], res: &mut [u8]) -> u64
    ensures { (result, res.new) ≡ hosted wide_unit (pack count patterns.now coefficients.now res.old) }
{
    for_host(
        packed::pack(count as usize, patterns, coefficients, res),
        WIDE_UNIT,
    )
}

pub fn reeveboom_slope(sum: &[u8], variable: u64, res: &mut [u8]) -> u64
    ensures { (result, res.new) ≡ hosted wide_unit (slope sum.now variable res.old) }
{
    for_host(change::slope(sum, variable, res), WIDE_UNIT)
}

// The result area comes before the work areas here, and after them in the operation.
pub fn reeveboom_substitute(
    sum: &[u8],
    list: &[u8],
    res: &mut [u8],
    patterns: &mut [u64],
    coefficients: &mut [i64],
) -> u64
    ensures { (result, (patterns.new, coefficients.new, res.new))
        ≡ hosted wide_unit (substitute sum.now list.now patterns.old coefficients.old res.old) }
{
    for_host(
        change::substitute(sum, list, patterns, coefficients, res),
        WIDE_UNIT,
    )
}

// For the estimate the number is refusal × 65,536 + place.
pub fn reeveboom_estimate(sum: &[u8], readings: &[u8], tolerances: &[u8], answer: &mut [u8]) -> u64
    ensures { (result, answer.new)
        ≡ hosted narrow_unit (router.estimate sum.now readings.now tolerances.now answer.old) }
{
    router::reeveboom_estimate(sum, readings, tolerances, answer)
}

pub fn reeveboom_write(sum: &[u8], text: &mut [u8]) -> u64
    ensures { (result, text.new) ≡ hosted wide_unit (write_text sum.now text.old) }
{
    for_host(spelling::write_text(sum, text), WIDE_UNIT)
}
