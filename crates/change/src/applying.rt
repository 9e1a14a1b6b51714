// The pairs of a list, applied one after the other.
// What is written stays two slices, as in `lib`; n stands beside them, since they are written past n too.
ghost use Rattle.std.specs.Prelude.{◌≡◌};
ghost use Rattle.algebra.specs.Word.{terms};
ghost use Rattle.algebra.specs.Held.{first_terms};
ghost use Rattle.answers.specs.Answers.{told, outcome};
ghost use Rattle.packed.specs.Result.{held_into};
ghost use Rattle.sums.specs.Asked.{Room};
ghost use Rattle.pair.specs.Asked.{CanPut};
ghost use Rattle.change.specs.Pairs.{pair};
ghost use Rattle.change.specs.Substitute.{judge_pair, judge_pairs};
ghost use Rattle.change.specs.Inside.Kept.{pairs_from, CanApply, HoldsGood};

use crate::lists::Entry;
use algebra::{LARGEST_WEIGHT, MOST_TERMS, Pattern, Terms};
use answers::{Answer, Refusal};
use pair::putting;

// Pair j: a sum is put for v in another one, if degree, weight and spread allow it. Done, it returns the number of terms.
fn apply_pair(
    j: usize,
    v: u64,
    put: Terms,
    into: Terms,
    patterns: &mut [u64],
    coefficients: &mut [i64],
) -> Answer
    requires can_put { CanPut v put.patterns.now put.coefficients.now into.patterns.now into.coefficients.now }
    requires room { Room patterns.old coefficients.old }
    ensures { outcome (told result) (patterns.new, coefficients.new)
        ≡ held_into
        (judge_pair j
        (pair v (terms put.entry.patterns.now put.entry.coefficients.now))
        (terms into.entry.patterns.now into.entry.coefficients.now))
        patterns.old coefficients.old }
{
    let measure = pair::measure(v, put, into);
    if measure.degree > Pattern::LARGEST_DEGREE {
        return Err(Refusal::Degree.at(j));
    }
    if measure.weight > LARGEST_WEIGHT {
        return Err(Refusal::Weight.at(j));
    }
    putting::put(v, measure.power, put, into, patterns, coefficients).ok_or(Refusal::Spread.at(j))
}

// All pairs, from pair 0 up: the sum of n terms in `fp` and `fc` becomes what they make of it.
pub(crate) fn apply_pairs(
    pairs: &[Entry],
    patterns: &[u64],
    coefficients: &[i64],
    fp: &mut [u64],
    fc: &mut [i64],
    n: usize,
) -> Answer
    requires can_apply { CanApply pairs.now patterns.now coefficients.now fp.old fc.old n }
    requires room { Room fp.old fc.old }
    ensures { HoldsGood
        (judge_pairs 0 (pairs_from 0 pairs.now patterns.now coefficients.now) (first_terms n fp.old fc.old))
        (told result) fp.new fc.new }
{
    let mut next_patterns = [0u64; MOST_TERMS];
    let mut next_coefficients = [0i64; MOST_TERMS];
    let mut terms = n;
    for (j, pair) in pairs.iter().enumerate() {
        let start = MOST_TERMS * j;
        let end = start + pair.terms;
        let put = Terms {
            patterns: &patterns[start..end],
            coefficients: &coefficients[start..end],
        };
        let into = Terms::first(terms, fp, fc);
        terms = apply_pair(
            j,
            pair.variable,
            put,
            into,
            &mut next_patterns,
            &mut next_coefficients,
        )?;
        prove!(terms <= MOST_TERMS);
        fp[..terms].copy_from_slice(&next_patterns[..terms]);
        fc[..terms].copy_from_slice(&next_coefficients[..terms]);
    }
    Ok(terms)
}
