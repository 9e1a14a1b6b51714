// What stands in a place of a lent area: a byte, or a word of 64 bits with or without a sign.
ghost use Rattle.std.specs.Prelude.{◌≡◌, true, ℕ, ◌*◌, ◌+◌, ◌^◌, ◌<◌, ◌≤◌, pos, refl};
ghost use Rattle.std.specs.Int.{w64};
ghost use Rattle.std.proofs.Common.{of_z, rules, lit≤};
ghost use Rattle.replay.specs.Limits.{most_bytes};
ghost use Rattle.replay.specs.Filling.{filled_byte, filled_word, filled_signed};

pub(crate) trait Place: Copy + PartialEq {
    // How many hex digits a value has in a line.
    const DIGITS: usize;

    const ZERO: Self;

    ghost DIGITS: { ℕ };

    ghost ZERO: { Self };

    ghost filled: { ℕ → Self };

    ghost bits: { Self → ℕ };

    // What place i is filled with.
    fn filled(i: usize) -> Self
        requires { i < most_bytes }
        ensures { result ≡ filled i };

    // The number that its digits are those of.
    fn bits(self) -> u64
        ensures value { result ≡ bits self }
        ensures fits { result < 16 ^ DIGITS };

    fn of_bits(word: u64) -> Self
        requires { word < 16 ^ DIGITS }
        ensures { bits result ≡ word };

    ghost has_digits: { 1 ≤ DIGITS };

    ghost fits_word: { DIGITS ≤ 16 };

    // `==` tells any two values apart, and no value from itself.
    ghost same_if_eq: { (a b : Self) → Self.eq a b ≡ true → a ≡ b };

    ghost eq_if_same: { (a : Self) → Self.eq a a ≡ true };
}

impl Place for u8 {
    const DIGITS: usize = 2;

    const ZERO: u8 = 0;

    ghost DIGITS = { 2 };

    ghost ZERO = { 0 };

    ghost filled = { filled_byte };

    ghost bits = { λ n. n };

    ghost has_digits = { lit≤ tt };

    ghost fits_word = { lit≤ tt };

    ghost same_if_eq = { Prim.search rules };

    ghost eq_if_same = { Prim.search rules };

    fn filled(i: usize) -> u8 {
        ((37 * i + 11) % 256) as u8
    }

    fn bits(self) -> u64 {
        u64::from(self)
    }

    fn of_bits(word: u64) -> u8 {
        word as u8
    }
}

impl Place for u64 {
    const DIGITS: usize = 16;

    const ZERO: u64 = 0;

    ghost DIGITS = { 16 };

    ghost ZERO = { 0 };

    ghost filled = { filled_word };

    ghost bits = { λ n. n };

    ghost has_digits = { lit≤ tt };

    ghost fits_word = { lit≤ tt };

    ghost same_if_eq = { Prim.search rules };

    ghost eq_if_same = { Prim.search rules };

    fn filled(i: usize) -> u64 {
        2654435761 * (i as u64) + 97
    }

    fn bits(self) -> u64 {
        self
    }

    fn of_bits(word: u64) -> u64 {
        word
    }
}

impl Place for i64 {
    const DIGITS: usize = 16;

    const ZERO: i64 = 0;

    ghost DIGITS = { 16 };

    ghost ZERO = { pos 0 };

    ghost filled = { filled_signed };

    ghost bits = { of_z w64 };

    ghost has_digits = { lit≤ tt };

    ghost fits_word = { lit≤ tt };

    ghost same_if_eq = { Prim.search rules };

    ghost eq_if_same = { Prim.search rules };

    fn filled(i: usize) -> i64 {
        u64::filled(i) as i64
    }

    fn bits(self) -> u64 {
        self.cast_unsigned()
    }

    fn of_bits(word: u64) -> i64 {
        word.cast_signed()
    }
}
