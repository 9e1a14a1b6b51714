// The functions of `host`, exported to C: each calls the function of its name, with the same contract.
// include/reeveboom.h declares them.
#![tactic(auto)]

ghost use Rattle.std.specs.Prelude.{◌≡◌};
ghost use Rattle.answers.specs.Host.{hosted, narrow_unit, wide_unit};
ghost use Rattle.text.specs.Text.{read_formula};
ghost use Rattle.formula.specs.Simplify.{simplify};
ghost use Rattle.packed.specs.Unpack.{unpack};
ghost use Rattle.packed.specs.Pack.{pack};
ghost use Rattle.change.specs.Slope.{slope};
ghost use Rattle.change.specs.Substitute.{substitute};
ghost use Rattle.router.specs.Estimate as router;
ghost use Rattle.spelling.specs.WriteText.{write_text};

#[unsafe(no_mangle)]
pub extern "C" fn reeveboom_text(text: &[u8], table: &mut [i64]) -> u64
    ensures { (result, table.new) ≡ hosted wide_unit (read_formula text.now table.old) }
{
    host::reeveboom_text(text, table)
}

// The result area comes before the work areas here, and after them in the operation.
#[unsafe(no_mangle)]
pub extern "C" fn reeveboom_simplify(
    table: &[i64],
    res: &mut [u8],
    patterns: &mut [u64],
    coefficients: &mut [i64],
) -> u64
    ensures { (result, (patterns.new, coefficients.new, res.new))
        ≡ hosted wide_unit (simplify table.now patterns.old coefficients.old res.old) }
{
    host::reeveboom_simplify(table, res, patterns, coefficients)
}

#[unsafe(no_mangle)]
pub extern "C" fn reeveboom_unpack(
    sum: &[u8],
    patterns: &mut [u64],
    coefficients: &mut [i64],
) -> u64
    ensures { (result, (patterns.new, coefficients.new))
        ≡ hosted wide_unit (unpack sum.now patterns.old coefficients.old) }
{
    host::reeveboom_unpack(sum, patterns, coefficients)
}

#[unsafe(no_mangle)]
pub extern "C" fn reeveboom_pack(
    count: u64,
    patterns: &[u64],
    coefficients: &[i64],
    res: &mut [u8],
) -> u64
    ensures { (result, res.new) ≡ hosted wide_unit (pack count patterns.now coefficients.now res.old) }
{
    host::reeveboom_pack(count, patterns, coefficients, res)
}

#[unsafe(no_mangle)]
pub extern "C" fn reeveboom_slope(sum: &[u8], variable: u64, res: &mut [u8]) -> u64
    ensures { (result, res.new) ≡ hosted wide_unit (slope sum.now variable res.old) }
{
    host::reeveboom_slope(sum, variable, res)
}

// The result area comes before the work areas here, and after them in the operation.
#[unsafe(no_mangle)]
pub extern "C" fn reeveboom_substitute(
    sum: &[u8],
    list: &[u8],
    res: &mut [u8],
    patterns: &mut [u64],
    coefficients: &mut [i64],
) -> u64
    ensures { (result, (patterns.new, coefficients.new, res.new))
        ≡ hosted wide_unit (substitute sum.now list.now patterns.old coefficients.old res.old) }
{
    host::reeveboom_substitute(sum, list, res, patterns, coefficients)
}

// For the estimate the number is refusal × 65,536 + place.
#[unsafe(no_mangle)]
pub extern "C" fn reeveboom_estimate(
    sum: &[u8],
    readings: &[u8],
    tolerances: &[u8],
    answer: &mut [u8],
) -> u64
    ensures { (result, answer.new)
        ≡ hosted narrow_unit (router.estimate sum.now readings.now tolerances.now answer.old) }
{
    host::reeveboom_estimate(sum, readings, tolerances, answer)
}

#[unsafe(no_mangle)]
pub extern "C" fn reeveboom_write(sum: &[u8], text: &mut [u8]) -> u64
    ensures { (result, text.new) ≡ hosted wide_unit (write_text sum.now text.old) }
{
    host::reeveboom_write(sum, text)
}
