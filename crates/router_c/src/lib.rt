// The estimate alone, exported to C: the function of `router`, with the same contract.
// include/reeveboom.h declares it.
#![tactic(auto)]

ghost use Rattle.std.specs.Prelude.{◌≡◌};
ghost use Rattle.answers.specs.Host.{hosted, narrow_unit};
ghost use Rattle.router.specs.Estimate.{estimate};

// 16 if it is done, else refusal × 65,536 + place.
#[unsafe(no_mangle)]
pub extern "C" fn reeveboom_estimate(
    sum: &[u8],
    readings: &[u8],
    tolerances: &[u8],
    answer: &mut [u8],
) -> u64
    ensures { (result, answer.new)
        ≡ hosted narrow_unit (estimate sum.now readings.now tolerances.now answer.old) }
{
    router::reeveboom_estimate(sum, readings, tolerances, answer)
}
