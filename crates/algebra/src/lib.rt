// Power patterns, each in one machine word. What a sum is, and the laws of sums, need no code: they stand in specs/ and proofs/.
// Begin with specs/Pattern.antt, Sum.antt and Collect.antt, then with `Pattern`.
#![tactic(auto)]

ghost use Rattle.std.specs.Prelude.{◌≡◌, ◌+◌, ◌*◌, ◌-◌, ◌≤◌, ◌<◌, set, length, take};
ghost use Rattle.algebra.specs.Limits.{variables, largest_degree, most_terms, largest_weight, most_nodes, work_places};
ghost use Rattle.algebra.specs.Inside.Either.{either};
ghost use Rattle.algebra.specs.Pattern.{empty_pattern, times, degree, exponent, lowered, without, order};
ghost use Rattle.algebra.specs.Word.{word, exponents, Valid};
ghost use Rattle.algebra.specs.Inside.Rank.{rank_of, word_at};
ghost use Rattle.algebra.specs.Inside.Standing.{standing};

use std::cmp::Ordering;

// The limits of a sum and of a formula. (Those of a pattern are the pattern's own.)
pub const MOST_TERMS: usize = 128;

pub const LARGEST_WEIGHT: u64 = 4611686018427387904;

pub const MOST_NODES: usize = 64;

// Each node has its own part of a work area.
pub const WORK_PLACES: usize = MOST_TERMS * MOST_NODES;

// The next four tie them to the definitions.
pub fn most_terms() -> usize
    ensures { result ≡ most_terms }
{
    MOST_TERMS
}

pub fn largest_weight() -> u64
    ensures { result ≡ largest_weight }
{
    LARGEST_WEIGHT
}

pub fn most_nodes() -> usize
    ensures { result ≡ most_nodes }
{
    MOST_NODES
}

pub fn work_places() -> usize
    ensures { result ≡ work_places }
{
    WORK_PLACES
}

// A sum in two slices, since C lends two areas: the words of its patterns, and their coefficients. (A running sum has the ranks of its patterns there, as `sums::rows` says.)
#[derive(Clone, Copy)]
pub struct Terms<'a> {
    pub patterns: &'a [u64],
    pub coefficients: &'a [i64],
}

impl<'a> Terms<'a> {
    // Those in the first n places of two areas.
    // Asks that n is at most both lengths.
    pub fn first(n: usize, patterns: &'a [u64], coefficients: &'a [i64]) -> Terms<'a>
        requires in_patterns { n ≤ length patterns.now }
        requires in_coefficients { n ≤ length coefficients.now }
        ensures patterns { result.patterns.now ≡ take n patterns.entry.now }
        ensures coefficients { result.coefficients.now ≡ take n coefficients.entry.now }
    {
        Terms {
            patterns: &patterns[..n],
            coefficients: &coefficients[..n],
        }
    }

    // How many they are.
    pub fn len(self) -> usize
        ensures { result ≡ length self.entry.patterns.now }
    {
        self.patterns.len()
    }
}

// What a slope needs of one pattern: the power of the variable, and the pattern with one power less. It is no Option: the power is the factor of the
// coefficient, 0 too.
#[derive(Clone, Copy, Debug, PartialEq, Eq)]
pub struct Step {
    pub power: u64,
    pub pattern: Pattern,
}

// Eight exponents, a byte each, a in the highest byte. A valid pattern's degree is at most 60, so no
// byte runs over into the next, and whole words can be added, compared and divided. It has no invariant: `total`, `either` and `exponent` take words that are
// not judged yet.
#[derive(Clone, Copy, Debug, PartialEq, Eq)]
pub struct Pattern(pub u64);

impl Pattern {
    pub const VARIABLES: u64 = 8;

    pub const LARGEST_DEGREE: u64 = 60;

    pub const EMPTY: Pattern = Pattern(0);

    // The layout: a field of eight bits for each variable.
    const FIELD_BITS: u64 = 8;

    const FIELD_SIZE: u64 = 256;

    // The lower of each two bytes.
    const EVERY_SECOND: u64 = 0x00ff00ff00ff00ff;

    // The quotient of a valid word by 255 has fewer bits.
    const RANK_BITS: u64 = 56;

    const RANK_SIZE: u64 = 0x0100000000000000;

    // The next three tie the constants to the definitions.
    pub fn variables() -> u64
        ensures { result ≡ variables }
    {
        Pattern::VARIABLES
    }

    pub fn largest_degree() -> u64
        ensures { result ≡ largest_degree }
    {
        Pattern::LARGEST_DEGREE
    }

    pub fn empty() -> Pattern
        ensures { result.0 ≡ word (empty_pattern variables) }
    {
        Pattern::EMPTY
    }

    // Exponents add up in their bytes.
    // Asks that both patterns are valid, and their degrees together at most 60.
    pub fn product(self, other: Pattern) -> Pattern
        requires valid { Valid self.0 }
        requires valid_2 { Valid other.0 }
        requires other_bound { degree (exponents self.0) + degree (exponents other.0) ≤ largest_degree }
        ensures { result.0 ≡ word (times (exponents self.0) (exponents other.0)) }
    {
        Pattern(self.0 + other.0)
    }

    // A pattern in which no exponent is smaller than in the two: the bits that either has. It asks for no valid patterns: no bit leaves its byte.
    pub fn either(self, other: Pattern) -> Pattern
        ensures { result.0 ≡ word (either (exponents self.0) (exponents other.0)) }
    {
        Pattern(self.0 | other.0)
    }

    // 256 leaves 1 when divided by 255, and so does each of its powers: the remainder is the sum of
    // the bytes.
    // Asks that the pattern is valid.
    pub fn degree(self) -> u64
        requires { Valid self.0 }
        ensures { result ≡ degree (exponents self.0) }
    {
        self.0 % 255
    }

    // The degree of any word, whatever its bytes are. They are added in two lots, every second byte in each: so two bytes share the 16 bits of two, and their
    // sum has room there. And 65536 leaves 1 when divided by 65535, as 256 does by 255.
    pub fn total(self) -> u64
        ensures { result ≡ degree (exponents self.0) }
    {
        let lanes = (self.0 & Pattern::EVERY_SECOND)
            + ((self.0 >> Pattern::FIELD_BITS) & Pattern::EVERY_SECOND);
        lanes % 65535
    }

    // The place in the term order as one number: the degree, and below it the quotient by 255. At equal remainders the larger word has the larger quotient. Ranks add up where words do.
    // Asks that the pattern is valid.
    pub fn rank(self) -> u64
        requires { Valid self.0 }
        ensures { result ≡ rank_of self.0 }
    {
        ((self.0 % 255) << Pattern::RANK_BITS) + self.0 / 255
    }

    // The pattern that has this rank: the quotient and the remainder make up the word again.
    pub fn of_rank(rank: u64) -> Pattern
        ensures { result.0 ≡ word_at rank }
    {
        Pattern(255 * (rank % Pattern::RANK_SIZE) + (rank >> Pattern::RANK_BITS))
    }

    // The larger degree stands first. At equal degrees it is the larger word: the first byte in which the two differ decides. `Less` is what stands before. It is no `Ord`: 01 names the method, and it asks for valid patterns.
    // Asks that both patterns are valid.
    pub fn compare(self, other: Pattern) -> Ordering
        requires valid { Valid self.0 }
        requires valid_2 { Valid other.0 }
        ensures { standing result ≡ order (exponents self.0) (exponents other.0) }
    {
        let mine = self.rank();
        let theirs = other.rank();
        theirs.cmp(&mine)
    }

    // The bits below the field of variable v.
    fn bits_below(v: u64) -> u64
        requires { v < variables }
        ensures { result ≡ 8 * (variables - 1 - v) }
    {
        Pattern::FIELD_BITS * (Pattern::VARIABLES - 1 - v)
    }

    // The power of variable v. It asks for no valid pattern: any word has eight bytes.
    // Asks that the variable's number is below 8.
    pub fn exponent(self, v: u64) -> u64
        requires { v < variables }
        ensures { result ≡ exponent v (exponents self.0) }
    {
        (self.0 >> Pattern::bits_below(v)) % Pattern::FIELD_SIZE
    }

    // The power e of variable v alone.
    // Asks that the variable's number is below 8, and the exponent at most 60.
    pub fn power(v: u64, e: u64) -> Pattern
        requires v_lt_variables { v < variables }
        requires e_le_largest_degree { e ≤ largest_degree }
        ensures { result.0 ≡ word (set (empty_pattern variables) v e) }
    {
        Pattern(e << Pattern::bits_below(v))
    }

    // The pattern with no power of v.
    // Asks that the pattern is valid, and the variable's number below 8.
    pub fn without(self, v: u64) -> Pattern
        requires valid { Valid self.0 }
        requires v_lt_variables { v < variables }
        ensures { result.0 ≡ word (without v (exponents self.0)) }
    {
        let alone = Pattern::power(v, self.exponent(v));
        Pattern(self.0 - alone.0)
    }

    // A pattern without v is its own step: the power 0 says that its term goes.
    // Asks that the pattern is valid, and the variable's number below 8.
    pub fn slope_step(self, v: u64) -> Step
        requires valid { Valid self.0 }
        requires v_lt_variables { v < variables }
        ensures { (result.power ≡ exponent v (exponents self.0)) × (result.pattern.0 ≡ word (lowered v (exponents self.0))) }
    {
        let power = self.exponent(v);
        if power == 0 {
            return Step {
                power,
                pattern: self,
            };
        }
        let one = 1 << Pattern::bits_below(v);
        let pattern = Pattern(self.0 - one);
        Step { power, pattern }
    }
}
