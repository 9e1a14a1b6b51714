// A sum is put for a variable, power by power: the terms without the variable come first, then those with its first power, and so on. Each power is
// formed once, of the one before. `wp` and `wc` hold the power of the sum that is put, `gr` and `gc` the running sum, which only `sums::rows` opens.
// What is written to stays two slices, as the areas that C lends and as `sums` writes them; what is only read is `Terms`.
ghost use Rattle.std.specs.Prelude.{◌≡◌, ◌≤◌, ◌<◌, take};
ghost use Rattle.algebra.specs.Limits.{variables, most_terms};
ghost use Rattle.algebra.specs.Substitute.{largest_power};
ghost use Rattle.algebra.specs.Word.{terms};
ghost use Rattle.algebra.specs.Held.{first_terms};
ghost use Rattle.sums.specs.Held.{Held};
ghost use Rattle.sums.specs.Asked.{Room, Factors};
ghost use Rattle.sums.specs.Formed.{formed_of, product_of, with_row, formed_into};
ghost use Rattle.sums.specs.Rows.{Stands, Added, running_words};
ghost use Rattle.pair.specs.Asked.{CanPut, Allowed};
ghost use Rattle.pair.specs.Formed.{pair_of};
ghost use Rattle.pair.specs.Rows.{part_at, rows_at, CanAddRows};

use algebra::{MOST_TERMS, Pattern, Terms};
use sums::{MOST_PLACES, rows};

// The terms with the power k of v, without it: they keep their order. It answers how many they are.
fn take_part(v: u64, k: u64, s: Terms, patterns: &mut [u64], coefficients: &mut [i64]) -> usize
    requires known { v < variables }
    requires held { Held s.patterns.now s.coefficients.now }
    requires room { Room patterns.old coefficients.old }
    ensures { Stands (part_at v k (terms s.entry.patterns.now s.entry.coefficients.now)) result patterns.new
        coefficients.new }
{
    // What is kept is written to the front: without a heap no adapter collects it.
    let mut count = 0;
    for (word, c) in s.patterns.iter().zip(s.coefficients) {
        let pattern = Pattern(*word);
        if pattern.exponent(v) == k {
            patterns[count] = pattern.without(v).0;
            coefficients[count] = *c;
            count += 1;
        }
    }
    count
}

// The rows of the terms with the power k of v go into the running sum, which has n terms: all pairs of these terms and of the power that is put for v.
// `pp` and `pc` are lent to work in.
fn add_rows(
    v: u64,
    k: u64,
    s: Terms,
    power: Terms,
    gr: &mut [u64],
    gc: &mut [i64],
    n: usize,
    pp: &mut [u64],
    pc: &mut [i64],
) -> Option<usize>
    requires can_add_rows { CanAddRows v k s.patterns.now s.coefficients.now power.patterns.now
        power.coefficients.now (running_words gr.old) gc.old n }
    requires room { Room pp.old pc.old }
    ensures { Added
        (with_row
        (rows_at v k (terms power.entry.patterns.now power.entry.coefficients.now)
        (terms s.entry.patterns.now s.entry.coefficients.now))
        (first_terms n (running_words gr.old) gc.old))
        (formed_of result) (running_words gr.new) gc.new }
{
    let m = take_part(v, k, s, pp, pc);
    if m == 0 {
        return Some(n);
    }
    rows::add_product(gr, gc, n, Terms::first(m, pp, pc), power)
}

// The power becomes the next one, which is formed in two areas that are lent to work in.
fn raise(
    wp: &mut [u64],
    wc: &mut [i64],
    n: usize,
    put: Terms,
    patterns: &mut [u64],
    coefficients: &mut [i64],
) -> Option<usize>
    requires few { n ≤ most_terms }
    requires factors { Factors (take n wp.old) (take n wc.old) put.patterns.now put.coefficients.now }
    requires power_room { Room wp.old wc.old }
    requires room { Room patterns.old coefficients.old }
    ensures { (formed_of result, wp.new, wc.new)
        ≡ formed_into
        (product_of (first_terms n wp.old wc.old) (terms put.entry.patterns.now put.entry.coefficients.now))
        wp.old wc.old }
{
    let count = sums::product(Terms::first(n, wp, wc), put, patterns, coefficients)?;
    prove!(count <= MOST_TERMS);
    wp[..count].copy_from_slice(&patterns[..count]);
    wc[..count].copy_from_slice(&coefficients[..count]);
    Some(count)
}

// `largest` is the largest power of v. No power above it is formed, since none above it is judged.
// Asks that the variable's number is below 8, both sums are held sums, degree and weight have passed, the largest power is that of the variable,
// and both areas have 128 places.
pub fn put(
    v: u64,
    largest: u64,
    put: Terms,
    into: Terms,
    patterns: &mut [u64],
    coefficients: &mut [i64],
) -> Option<usize>
    requires can_put { CanPut v put.patterns.now put.coefficients.now into.patterns.now into.coefficients.now }
    requires allowed { Allowed v put.patterns.now put.coefficients.now into.patterns.now into.coefficients.now }
    requires largest_value { largest ≡ largest_power v (terms into.patterns.now into.coefficients.now) }
    requires room { Room patterns.old coefficients.old }
    ensures { (formed_of result, patterns.new, coefficients.new)
        ≡ formed_into
        (pair_of v
        (terms put.entry.patterns.now put.entry.coefficients.now)
        (terms into.entry.patterns.now into.entry.coefficients.now))
        patterns.old coefficients.old }
{
    let mut gr = [0u64; MOST_PLACES];
    let mut gc = [0i64; MOST_PLACES];
    let mut wp = [0u64; MOST_TERMS];
    let mut wc = [0i64; MOST_TERMS];
    let mut pp = [0u64; MOST_TERMS];
    let mut pc = [0i64; MOST_TERMS];
    // The power 0 is 1: the terms without the variable stand as they are.
    let mut all = take_part(v, 0, into, &mut pp, &mut pc);
    rows::begin(Terms::first(all, &pp, &pc), &mut gr, &mut gc);
    let mut n = sums::integer(1, &mut wp, &mut wc);
    for k in 0..largest {
        // Not by `?`: an edit that answers something else here shows what is judged, where one in place of `?` would be refused for the form alone.
        let Some(count) = raise(&mut wp, &mut wc, n, put, &mut pp, &mut pc) else {
            return None;
        };
        n = count;
        let power = Terms::first(n, &wp, &wc);
        all = add_rows(
            v,
            k + 1,
            into,
            power,
            &mut gr,
            &mut gc,
            all,
            &mut pp,
            &mut pc,
        )?;
    }
    Some(rows::finish(Terms::first(all, &gr, &gc), patterns, coefficients))
}
