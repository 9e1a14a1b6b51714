// Readings and tolerances: read from bytes, judged, and the readings raised.
ghost use Rattle.std.specs.Prelude.{◌≡◌, ◌≤◌, ◌<◌, nat_abs, length, get_or, pos};
ghost use Rattle.algebra.specs.Limits.{variables};
ghost use Rattle.algebra.specs.Margin.{unsigned, raised_by};
ghost use Rattle.estimates.specs.Inside.Held.{Covers};
ghost use Rattle.estimates.specs.Readings.{reading_bytes, two_byte_numbers, before_negative};

use crate::VARIABLES;
use crate::factors::Both;

// Two bytes for each variable.
pub const READING_BYTES: usize = 2 * VARIABLES;

// A reading for each variable, and each of them raised.
#[derive(Clone, Copy)]
pub(crate) struct Readings<'a> {
    pub(crate) readings: &'a [i64],
    pub(crate) raised: &'a [u64],
    ghost covers: { Covers readings.now raised.now },
}

impl Readings<'_> {
    // One variable's raised reading, and the reading itself.
    pub(crate) fn at(self, v: usize) -> Both
        requires { v < variables }
        ensures most { result.most ≡ get_or self.entry.raised.now v 0 }
        ensures value { result.value ≡ get_or self.entry.readings.now v (pos 0) }
        ensures no_smaller { nat_abs result.value ≤ result.most }
    {
        Both {
            most: self.raised[v],
            value: self.readings[v],
        }
    }
}

// How many tolerances stand before the first negative one.
pub fn before_negative(tolerances: &[i64]) -> usize
    ensures { result ≡ before_negative tolerances.now }
{
    // std's `position` was tried: of signed numbers its proof does not close.
    for (v, tolerance) in tolerances.iter().enumerate() {
        if *tolerance < 0 {
            return v;
        }
    }
    tolerances.len()
}

// Each reading without its sign, raised by its tolerance.
// Asks that there are as many readings, tolerances and places, and that no tolerance is below 0.
pub fn raise(readings: &[i64], tolerances: &[i64], raised: &mut [u64])
    requires readings_len { length readings.now ≡ length raised.old }
    requires tolerances_len { length tolerances.now ≡ length raised.old }
    requires tolerances_value { before_negative tolerances.now ≡ length tolerances.now }
    ensures { raised.new ≡ raised_by readings.now (unsigned tolerances.now) }
{
    // By index: a zip of three slices is no plainer.
    for v in 0..raised.len() {
        raised[v] = readings[v].unsigned_abs() + tolerances[v].unsigned_abs();
    }
}

// Numbers of two bytes each, in two's complement, low byte first: as many as there are places for them.
// Asks that there are two bytes for each place.
pub fn read_numbers(bytes: &[u8], numbers: &mut [i64])
    requires { length bytes.now ≡ reading_bytes (length numbers.old) }
    ensures { numbers.new ≡ two_byte_numbers bytes.now }
{
    for v in 0..numbers.len() {
        let number = i16::from_le_bytes([bytes[2 * v], bytes[2 * v + 1]]);
        numbers[v] = i64::from(number);
    }
}
