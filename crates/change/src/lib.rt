// What is done to packed sums: the slope by a variable, and sums put for variables.
// Begin with specs/Slope.antt and specs/Substitute.antt, then with `slope` and `substitute`.
// What is written stays two slices, as C lends it: a struct of `&mut` slices would have to say in each contract where they point.
#![tactic(auto)]

ghost use Rattle.std.specs.Prelude.{◌≡◌, ◌≤◌, length, take, drop};
ghost use Rattle.algebra.specs.Limits.{variables, most_terms, work_places};
ghost use Rattle.algebra.specs.Held.{first_terms};
ghost use Rattle.answers.specs.Answers.{told, outcome};
ghost use Rattle.numbers.specs.Item.{Item.got};
ghost use Rattle.packed.specs.Inside.Held.{read_count};
ghost use Rattle.packed.specs.Packed.{most_bytes};
ghost use Rattle.packed.specs.Result.{packed_into};
ghost use Rattle.sums.specs.Held.{HeldSum};
ghost use Rattle.change.specs.Slope.{judge_slope, slope};
ghost use Rattle.change.specs.Substitute.{judge_substitute, substitute};

use algebra::{LARGEST_WEIGHT, MOST_TERMS, Pattern, Terms, WORK_PLACES};
use answers::{Answer, Refusal};
use packed::{FEW_TERMS, writer};

mod applying;
mod lists;
mod slopes;

use lists::Entry;

// As many pairs as there are variables.
const MOST_PAIRS: usize = Pattern::VARIABLES as usize;

// Writes the slope of the sum in the first n places of two arrays, which are the caller's own: it is formed there.
fn write_slope(v: u64, n: usize, sp: &mut [u64], sc: &mut [i64], res: &mut [u8]) -> Answer
    requires in_patterns { n ≤ length sp.old }
    requires in_coefficients { n ≤ length sc.old }
    requires held_sum { HeldSum (take n sp.old) (take n sc.old) }
    requires room { most_bytes variables ≤ length res.old }
    ensures { outcome (told result) res.new
        ≡ packed_into (judge_slope v (first_terms n sp.old sc.old)) res.old }
{
    if v >= Pattern::VARIABLES {
        return Err(Refusal::Variable.at(0));
    }
    if slopes::weigh(v, Terms::first(n, sp, sc)) > LARGEST_WEIGHT {
        return Err(Refusal::Weight.at(0));
    }
    let count = slopes::form(v, n, sp, sc);
    // It has no more terms than the sum, so this is never met.
    if count > MOST_TERMS {
        return Err(Refusal::Spread.at(0));
    }
    Ok(writer::write_sum(res, 0, Terms::first(count, sp, sc)))
}

// The slope of a packed sum whose count was read, with its terms in two arrays of N places.
fn slope_by<const N: usize>(bytes: &[u8], next: usize, n: usize, v: u64, res: &mut [u8]) -> Answer
    requires places { N ≤ most_terms }
    requires few { n ≤ N }
    requires counted { read_count bytes.now 0 ≡ got n next }
    requires room { most_bytes variables ≤ length res.old }
    ensures { outcome (told result) res.new ≡ slope bytes.now v res.old }
{
    let mut sp = [0u64; N];
    let mut sc = [0i64; N];
    packed::take_whole(bytes, next, n, &mut sp, &mut sc)?;
    write_slope(v, n, &mut sp, &mut sc, res)
}

// The slope of a packed sum by the variable v. Few terms go through small arrays: to clear large ones would take longer.
pub fn slope(bytes: &[u8], v: u64, res: &mut [u8]) -> Answer
    ensures { outcome (told result) res.new ≡ slope bytes.now v res.old }
{
    if res.len() < packed::MOST_BYTES {
        return Err(Refusal::Room.at(0));
    }
    let (number, next) = packed::read_count(bytes, 0).map_err(packed::sum_at_fault)?;
    let n = number as usize;
    if n <= FEW_TERMS {
        slope_by::<FEW_TERMS>(bytes, next, n, v, res)
    } else {
        slope_by::<MOST_TERMS>(bytes, next, n, v, res)
    }
}

// The pairs that were read: so many of the entries. In a function of its own it is proved without an answer, so an edit of it is refused for what it means alone.
fn first_pairs(entries: &[Entry], pairs: usize) -> &[Entry]
    requires { pairs ≤ length entries.now }
    ensures { result.now ≡ take pairs entries.entry.now }
{
    &entries[..pairs]
}

// Writes the packed sum that the list makes of a packed sum. Of the work areas only this is said: their further places stay. The caller clears the rest.
fn substitute_list(
    bytes: &[u8],
    list: &[u8],
    patterns: &mut [u64],
    coefficients: &mut [i64],
    res: &mut [u8],
) -> Answer
    requires patterns_room { work_places ≤ length patterns.old }
    requires coefficients_room { work_places ≤ length coefficients.old }
    requires room { most_bytes variables ≤ length res.old }
    ensures res_after { outcome (told result) res.new ≡ packed_into (judge_substitute bytes.now list.now) res.old }
    ensures patterns_stay { drop work_places patterns.new ≡ drop work_places patterns.old }
    ensures coefficients_stay { drop work_places coefficients.new ≡ drop work_places coefficients.old }
{
    let (number, next) = packed::read_count(bytes, 0).map_err(packed::sum_at_fault)?;
    let n = number as usize;
    let mut fp = [0u64; MOST_TERMS];
    let mut fc = [0i64; MOST_TERMS];
    packed::take_whole(bytes, next, n, &mut fp, &mut fc)?;
    let mut entries = [Entry::default(); MOST_PAIRS];
    let (pairs, _) = lists::read_list(list, &mut entries, patterns, coefficients)?;
    let count = applying::apply_pairs(
        first_pairs(&entries, pairs),
        patterns,
        coefficients,
        &mut fp,
        &mut fc,
        n,
    )?;
    Ok(writer::write_sum(res, 0, Terms::first(count, &fp, &fc)))
}

// The pairs of a list are applied to a packed sum, one after the other.
pub fn substitute(
    bytes: &[u8],
    list: &[u8],
    patterns: &mut [u64],
    coefficients: &mut [i64],
    res: &mut [u8],
) -> Answer
    ensures { outcome (told result) (patterns.new, coefficients.new, res.new)
        ≡ substitute bytes.now list.now patterns.old coefficients.old res.old }
{
    if patterns.len() < WORK_PLACES
        || coefficients.len() < WORK_PLACES
        || res.len() < packed::MOST_BYTES
    {
        return Err(Refusal::Room.at(0));
    }
    let answer = substitute_list(bytes, list, patterns, coefficients, res);
    patterns[..WORK_PLACES].fill(0);
    coefficients[..WORK_PLACES].fill(0);
    answer
}
