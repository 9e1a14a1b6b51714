// Rows of products, merged into a running sum. Cancelled patterns stay in a running sum, and count, until it is finished. A running sum and the sums that
// are multiplied are held by ranks instead of words: ranks add up as words do, and two of them compare as numbers. Other crates see no rank:
// they begin a running sum in two areas of their own, add products to it and finish it, all by words.
// A running sum's areas and its number of terms stay three parameters: each contract that a struct of `&mut` slices is given to would have to say where they point.
ghost use Rattle.std.specs.Prelude.{◌≡◌, cond, map, ◌+◌, ◌*◌, ◌-◌, ◌≤◌, eqb, pos, length, get_or, take};
ghost use Prim.Native.Nat.{Ordering.lt};
ghost use Rattle.algebra.specs.Limits.{most_terms};
ghost use Rattle.algebra.specs.Pattern.{order};
ghost use Rattle.algebra.specs.Collect.{drop_zeros};
ghost use Rattle.algebra.specs.Arithmetic.{pairs};
ghost use Rattle.algebra.specs.Inside.Standing.{standing};
ghost use Rattle.algebra.specs.Word.{exponents, terms, Valid, EachValid};
ghost use Rattle.algebra.specs.Inside.Rank.{rank_of, word_at, words_at};
ghost use Rattle.algebra.specs.Held.{first_terms};
ghost use Rattle.answers.specs.Areas.{written, cleared};
ghost use Rattle.sums.specs.Held.{Held};
ghost use Rattle.sums.specs.Asked.{Room};
ghost use Rattle.sums.specs.Formed.{formed_of, Formed.formed, with_row, formed_into};
ghost use Rattle.sums.specs.Rows.{CanMerge, joined, joined_into, Gapped, closed, Stands, CanAdd, Added};
ghost use Rattle.sums.specs.Rows.{running_into, running_words, places_for, CanAddProduct};

use crate::{FEW_TERMS, MOST_PLACES};
use algebra::{MOST_TERMS, Pattern, Terms};
use std::cmp::Ordering;

// The ranks of words.
pub(crate) fn rank_words(words: &[u64], ranks: &mut [u64])
    requires each_valid { EachValid words.now }
    requires words_in_bounds { length words.now ≤ length ranks.old }
    ensures { ranks.new ≡ written (map rank_of words.now) ranks.old }
{
    for k in 0..words.len() {
        ranks[k] = Pattern(words[k]).rank();
    }
}

// How the last of the first i patterns stands to another one. Where there is none left, the other one is next: that counts as before.
fn last_stands(ranks: &[u64], i: usize, rank: u64) -> Ordering
    requires i_in_bounds { i ≤ length ranks.now }
    requires each_valid { EachValid (take i (words_at ranks.now)) }
    requires valid { Valid (word_at rank) }
    ensures { standing result
        ≡ cond (eqb i 0) lt (order (exponents (get_or (words_at ranks.now) (i - 1) 0)) (exponents (word_at rank))) }
{
    if i == 0 {
        return Ordering::Less;
    }
    rank.cmp(&ranks[i - 1])
}

// What a merge leaves: a gap between the terms that stayed where they were and those that were moved or put in.
#[derive(Clone, Copy)]
struct Gap {
    from: usize,
    to: usize,
}

// Merges a row, c times the pattern times each term of t (a term is two parameters: here its pattern is a rank, and elsewhere a word), into a running sum of n terms: from the back, into as many places as the two have terms, so that no term is overwritten before it
// is moved. A pattern that both have leaves one place over.
fn merge(ranks: &mut [u64], coefficients: &mut [i64], n: usize, rank: u64, c: i64, t: Terms) -> Gap
    requires { CanMerge (words_at ranks.old) coefficients.old n (word_at rank) c (words_at t.patterns.now) t.coefficients.now }
    ensures { Gapped
        (joined c (word_at rank) (words_at t.entry.patterns.now) t.entry.coefficients.now n (words_at ranks.old) coefficients.old)
        (words_at ranks.new) coefficients.new result.from result.to (n + length t.entry.patterns.now) }
{
    let mut i = n;
    let mut j = t.patterns.len();
    let mut k = n + j;
    while j > 0 {
        k -= 1;
        let next = rank + t.patterns[j - 1];
        match last_stands(ranks, i, next) {
            Ordering::Less => {
                j -= 1;
                let d = t.coefficients[j];
                ranks[k] = next;
                coefficients[k] = c * d;
            }
            Ordering::Equal => {
                i -= 1;
                j -= 1;
                let d = t.coefficients[j];
                let e = coefficients[i];
                ranks[k] = next;
                coefficients[k] = c * d + e;
            }
            Ordering::Greater => {
                i -= 1;
                let e = coefficients[i];
                ranks[k] = ranks[i];
                coefficients[k] = e;
            }
        }
    }
    Gap { from: i, to: k }
}

// Closes a gap: what stands after it, up to place `end`, moves down. It answers the number of terms. Where no pattern was met twice there is no gap, and nothing moves.
fn close(ranks: &mut [u64], coefficients: &mut [i64], from: usize, to: usize, end: usize) -> usize
    requires from_le_to { from ≤ to }
    requires to_le_end { to ≤ end }
    requires end_in_bounds { end ≤ length ranks.old }
    requires end_in_bounds_2 { end ≤ length coefficients.old }
    ensures value { result ≡ from + (end - to) }
    ensures ranks_after { take result ranks.new ≡ closed from to end ranks.old }
    ensures coefficients_after { take result coefficients.new ≡ closed from to end coefficients.old }
{
    if from == to {
        return end;
    }
    let mut i = from;
    for k in to..end {
        let c = coefficients[k];
        ranks[i] = ranks[k];
        coefficients[i] = c;
        i += 1;
    }
    i
}

// Merges a row into a running sum of n terms, closes the gap, and answers how many terms they have together. What stands after them is not said: the
// areas are the callers' own.
fn merge_row(
    ranks: &mut [u64],
    coefficients: &mut [i64],
    n: usize,
    rank: u64,
    c: i64,
    t: Terms,
) -> usize
    requires { CanMerge (words_at ranks.old) coefficients.old n (word_at rank) c (words_at t.patterns.now) t.coefficients.now }
    ensures { Stands
        (joined c (word_at rank) (words_at t.entry.patterns.now) t.entry.coefficients.now n (words_at ranks.old) coefficients.old)
        result (words_at ranks.new) coefficients.new }
{
    let end = n + t.patterns.len();
    let gap = merge(ranks, coefficients, n, rank, c, t);
    close(ranks, coefficients, gap.from, gap.to, end)
}

// The words of ranks.
fn unrank(ranks: &[u64], words: &mut [u64])
    requires { length ranks.now ≤ length words.old }
    ensures { words.new ≡ written (words_at ranks.now) words.old }
{
    for k in 0..ranks.len() {
        words[k] = Pattern::of_rank(ranks[k]).0;
    }
}

// Terms that are held by ranks go to the first places of two areas, by words. These are cleared up to place `end` before, so that nothing else is left there.
fn put_back(ranked: Terms, end: usize, patterns: &mut [u64], coefficients: &mut [i64])
    requires patterns_bound { length ranked.patterns.now ≤ end }
    requires coefficients_bound { length ranked.coefficients.now ≤ end }
    requires end_in_bounds { end ≤ length patterns.old }
    requires end_in_bounds_2 { end ≤ length coefficients.old }
    ensures patterns_after { patterns.new ≡ written (words_at ranked.entry.patterns.now) (cleared 0 end patterns.old) }
    ensures coefficients_after { coefficients.new ≡ written ranked.entry.coefficients.now (cleared (pos 0) end coefficients.old) }
{
    patterns[..end].fill(0);
    coefficients[..end].fill(0);
    unrank(ranked.patterns, patterns);
    coefficients[..ranked.coefficients.len()].copy_from_slice(ranked.coefficients);
}

// One row for other crates, by words: c times the pattern of the word times each term of t goes into the running sum of n terms in the first places of two areas. The
// answer may be more than 128: what has cancelled stays, and counts. The places after the terms are cleared up to the last that a merge touches; all others stay.
// Asks that the running sum and t are held and the word is valid, that the row's degree is at most 60, that the weights of both together are below 2^63, and that both areas have room for all terms of both.
pub fn add_row(
    patterns: &mut [u64],
    coefficients: &mut [i64],
    n: usize,
    word: u64,
    c: i64,
    t: Terms,
) -> usize
    requires { CanMerge patterns.old coefficients.old n word c t.patterns.now t.coefficients.now }
    ensures { (result, patterns.new, coefficients.new)
        ≡ joined_into c word t.entry.patterns.now t.entry.coefficients.now n patterns.old coefficients.old }
{
    let mut gr = [0u64; MOST_PLACES];
    let mut gc = [0i64; MOST_PLACES];
    let mut tr = [0u64; MOST_TERMS];
    let m = t.patterns.len();
    begin(Terms::first(n, patterns, coefficients), &mut gr, &mut gc);
    rank_words(t.patterns, &mut tr);
    let rank = Pattern(word).rank();
    let factor = Terms {
        patterns: &tr[..m],
        coefficients: t.coefficients,
    };
    let all = merge_row(&mut gr, &mut gc, n, rank, c, factor);
    put_back(Terms::first(all, &gr, &gc), n + m, patterns, coefficients);
    all
}

// Adds all pairs of two sums to a running sum of n terms: a row for each term of s, the first of them first. The patterns of each row stand behind those of the row before, so that a merge
// moves few terms. It ends where the patterns are too many.
pub(crate) fn add_pairs(
    ranks: &mut [u64],
    coefficients: &mut [i64],
    n: usize,
    s: Terms,
    t: Terms,
) -> Option<usize>
    requires { CanAdd (words_at ranks.old) coefficients.old n
        (words_at s.patterns.now) s.coefficients.now (words_at t.patterns.now) t.coefficients.now }
    ensures { Added
        (with_row
        (pairs
        (terms (words_at s.entry.patterns.now) s.entry.coefficients.now)
        (terms (words_at t.entry.patterns.now) t.entry.coefficients.now))
        (first_terms n (words_at ranks.old) coefficients.old))
        (formed_of result) (words_at ranks.new) coefficients.new }
{
    let mut all = n;
    for (rank, c) in s.patterns.iter().zip(s.coefficients) {
        all = merge_row(ranks, coefficients, all, *rank, *c, t);
        if all > MOST_TERMS {
            return None;
        }
    }
    Some(all)
}

// The places that a running sum of n terms takes up while so many pairs are added to it.
fn places(n: usize, pairs: usize) -> usize
    requires n_le_most_terms { n ≤ most_terms }
    requires pairs_bound { pairs ≤ most_terms * most_terms }
    ensures { result ≡ places_for n pairs }
{
    MOST_PLACES.min(n + pairs)
}

// All pairs of two sums go into a running sum of n terms, with a row for each term of the shorter of the two.
fn add_straight(
    ranks: &mut [u64],
    coefficients: &mut [i64],
    n: usize,
    s: Terms,
    t: Terms,
) -> Option<usize>
    requires { CanAddProduct ranks.old coefficients.old n
        (words_at s.patterns.now) s.coefficients.now (words_at t.patterns.now) t.coefficients.now }
    ensures { Added
        (with_row
        (pairs
        (terms (words_at s.entry.patterns.now) s.entry.coefficients.now)
        (terms (words_at t.entry.patterns.now) t.entry.coefficients.now))
        (first_terms n (words_at ranks.old) coefficients.old))
        (formed_of result) (words_at ranks.new) coefficients.new }
{
    if s.patterns.len() < t.patterns.len() {
        return add_pairs(ranks, coefficients, n, s, t);
    }
    add_pairs(ranks, coefficients, n, t, s)
}

// The same, but more rows than one are formed apart, in two other arrays, and go into the running sum as one row: it is long, and every row would move its
// terms.
fn add_apart(
    ranks: &mut [u64],
    coefficients: &mut [i64],
    n: usize,
    s: Terms,
    t: Terms,
) -> Option<usize>
    requires { CanAddProduct ranks.old coefficients.old n
        (words_at s.patterns.now) s.coefficients.now (words_at t.patterns.now) t.coefficients.now }
    ensures { Added
        (with_row
        (pairs
        (terms (words_at s.entry.patterns.now) s.entry.coefficients.now)
        (terms (words_at t.entry.patterns.now) t.entry.coefficients.now))
        (first_terms n (words_at ranks.old) coefficients.old))
        (formed_of result) (words_at ranks.new) coefficients.new }
{
    if s.patterns.len() < 2 || t.patterns.len() < 2 {
        return add_straight(ranks, coefficients, n, s, t);
    }
    let mut hr = [0u64; MOST_PLACES];
    let mut hc = [0i64; MOST_PLACES];
    let together = add_straight(&mut hr, &mut hc, 0, s, t)?;
    // The rank 0 is that of the empty pattern.
    let one = Terms {
        patterns: &[0],
        coefficients: &[1],
    };
    add_straight(
        ranks,
        coefficients,
        n,
        Terms::first(together, &hr, &hc),
        one,
    )
}

// The same, and all places after the sum are cleared; without a sum all places.
fn add_cleared(
    ranks: &mut [u64],
    coefficients: &mut [i64],
    n: usize,
    s: Terms,
    t: Terms,
) -> Option<usize>
    requires { CanAddProduct ranks.old coefficients.old n
        (words_at s.patterns.now) s.coefficients.now (words_at t.patterns.now) t.coefficients.now }
    ensures { (formed_of result, ranks.new, coefficients.new) ≡ running_into
        (with_row
        (pairs
        (terms (words_at s.entry.patterns.now) s.entry.coefficients.now)
        (terms (words_at t.entry.patterns.now) t.entry.coefficients.now))
        (first_terms n (words_at ranks.old) coefficients.old))
        (cleared 0 (length ranks.old) ranks.old)
        (cleared (pos 0) (length coefficients.old) coefficients.old) }
{
    let formed = add_apart(ranks, coefficients, n, s, t);
    let all = formed.unwrap_or(0);
    ranks[all..].fill(0);
    coefficients[all..].fill(0);
    formed
}

// All pairs of two sums of N terms at most, given by words. Of the running sum's areas no more places are lent than are needed, since they are cleared.
fn add_product_by<const N: usize>(
    ranks: &mut [u64],
    coefficients: &mut [i64],
    n: usize,
    s: Terms,
    t: Terms,
) -> Option<usize>
    requires n_bound { N ≤ most_terms }
    requires can_add_product { CanAddProduct ranks.old coefficients.old n s.patterns.now s.coefficients.now t.patterns.now t.coefficients.now }
    requires s_in_bounds { length s.patterns.now ≤ N }
    requires t_in_bounds { length t.patterns.now ≤ N }
    ensures { (formed_of result, ranks.new, coefficients.new) ≡ running_into
        (with_row
        (pairs (terms s.entry.patterns.now s.entry.coefficients.now) (terms t.entry.patterns.now t.entry.coefficients.now))
        (first_terms n (running_words ranks.old) coefficients.old))
        (cleared 0 (places_for n (length s.entry.patterns.now * length t.entry.patterns.now)) ranks.old)
        (cleared (pos 0) (places_for n (length s.entry.patterns.now * length t.entry.patterns.now)) coefficients.old) }
{
    let m = s.patterns.len();
    let w = t.patterns.len();
    let mut sr = [0; N];
    let mut tr = [0; N];
    rank_words(s.patterns, &mut sr);
    rank_words(t.patterns, &mut tr);
    let end = places(n, m * w);
    let s_ranks = Terms {
        patterns: &sr[..m],
        coefficients: s.coefficients,
    };
    let t_ranks = Terms {
        patterns: &tr[..w],
        coefficients: t.coefficients,
    };
    add_cleared(
        &mut ranks[..end],
        &mut coefficients[..end],
        n,
        s_ranks,
        t_ranks,
    )
}

// ---- A running sum for other crates. It stands in two areas of the caller's that it does not open.

// A sum is put there.
// Asks that the sum is held, and there is room for its terms.
pub fn begin(s: Terms, ranks: &mut [u64], coefficients: &mut [i64])
    requires held { Held s.patterns.now s.coefficients.now }
    requires s_in_bounds { length s.patterns.now ≤ length ranks.old }
    requires s_in_bounds_2 { length s.patterns.now ≤ length coefficients.old }
    ensures ranks_after { ranks.new ≡ written (map rank_of s.entry.patterns.now) ranks.old }
    ensures coefficients_after { coefficients.new ≡ written s.entry.coefficients.now coefficients.old }
{
    rank_words(s.patterns, ranks);
    coefficients[..s.coefficients.len()].copy_from_slice(s.coefficients);
}

// Adds all pairs of two sums, by words, to a running sum of n terms. The places that it takes up meanwhile are cleared after the sum, and without a sum all of
// them; all others stay. Two small sums are ranked in small arrays: to clear large ones would take longer than to add the pairs.
// Asks that running sum and operands are held, degree and weight of the result are within the limits, and both areas have room for the running sum and all pairs, or 256 places.
pub fn add_product(
    ranks: &mut [u64],
    coefficients: &mut [i64],
    n: usize,
    s: Terms,
    t: Terms,
) -> Option<usize>
    requires { CanAddProduct ranks.old coefficients.old n s.patterns.now s.coefficients.now t.patterns.now t.coefficients.now }
    ensures { (formed_of result, ranks.new, coefficients.new) ≡ running_into
        (with_row
        (pairs (terms s.entry.patterns.now s.entry.coefficients.now) (terms t.entry.patterns.now t.entry.coefficients.now))
        (first_terms n (running_words ranks.old) coefficients.old))
        (cleared 0 (places_for n (length s.entry.patterns.now * length t.entry.patterns.now)) ranks.old)
        (cleared (pos 0) (places_for n (length s.entry.patterns.now * length t.entry.patterns.now)) coefficients.old) }
{
    if s.patterns.len() <= FEW_TERMS && t.patterns.len() <= FEW_TERMS {
        return add_product_by::<FEW_TERMS>(ranks, coefficients, n, s, t);
    }
    add_product_by::<MOST_TERMS>(ranks, coefficients, n, s, t)
}

// The operation is complete: the terms of a running sum that have not cancelled are written to two areas, by words again. `running` has ranks in the place of words.
// Asks that the running sum is held, and both areas have 128 places.
pub fn finish(running: Terms, patterns: &mut [u64], coefficients: &mut [i64]) -> usize
    requires held { Held (running_words running.patterns.now) running.coefficients.now }
    requires room { Room patterns.old coefficients.old }
    ensures { (formed result, patterns.new, coefficients.new)
        ≡ formed_into
        (formed (drop_zeros (terms (running_words running.entry.patterns.now) running.entry.coefficients.now)))
        patterns.old coefficients.old }
{
    let mut count = 0;
    for k in 0..running.patterns.len() {
        let c = running.coefficients[k];
        if c == 0 {
            continue;
        }
        patterns[count] = Pattern::of_rank(running.patterns[k]).0;
        coefficients[count] = c;
        count += 1;
    }
    count
}
