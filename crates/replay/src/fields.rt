// The fields of a line, which are read one after the other. `None` is for a line that is no case.
ghost use Rattle.std.specs.Prelude.{◌≡◌, ◌∷◌, ◌++◌, ℕ, ◌*◌, ◌≤◌, ◌<◌, length, IfSome, MatchOption};
ghost use Rattle.replay.specs.Fields.{blank};
ghost use Rattle.io.specs.Digits.{hex_digit_ascii};
ghost use Rattle.replay.specs.Hex.{hex_digits};

use crate::places::Place;

// What is left of a line: its fields, with a blank between two of them, or nothing once the last one was taken.
#[derive(Clone, Copy)]
pub struct Fields<'a> {
    rest: Option<&'a [u8]>,
}

// The value of a hex digit, in lower case.
fn digit(b: u8) -> Option<u8>
    ensures { MatchOption result ((n : ℕ) → n < 16 → b ≡ hex_digit_ascii n → ⊥) (λ n. (n < 16) × (b ≡ hex_digit_ascii n)) }
{
    match b {
        b'0'..=b'9' => Some(b - b'0'),
        b'a'..=b'f' => Some(b - b'a' + 10),
        _ => None,
    }
}

// The value that is written in so many digits.
fn value<T: Place>(text: &[u8]) -> Option<T>
    ensures { IfSome result (λ v. text.now ≡ hex_digits T.DIGITS (T.bits v)) }
{
    if text.len() != T::DIGITS {
        return None;
    }
    let mut word = 0;
    for b in text {
        word = 16 * word + u64::from(digit(*b)?);
    }
    Some(T::of_bits(word))
}

impl<'a> Fields<'a> {
    pub(crate) fn of(line: &'a [u8]) -> Fields<'a> {
        Fields { rest: Some(line) }
    }

    // The next field, up to a blank or to the end of the line.
    pub(crate) fn next_field(&mut self) -> Option<&'a [u8]>
        ensures { IfSome self.old.rest (λ line. IfSome result (λ field. MatchOption self.new.rest
            (line.now ≡ field.now) (λ rest. line.now ≡ field.now ++ (blank ∷ rest.now)))) }
    {
        let rest = self.rest?;
        match rest.iter().position(|b| *b == b' ') {
            Some(end) => {
                self.rest = Some(&rest[end + 1..]);
                Some(&rest[..end])
            }
            None => {
                self.rest = None;
                Some(rest)
            }
        }
    }

    // Values in hex, one behind the other, at the start of an area: how many there are. A minus stands for none.
    pub(crate) fn values<T: Place>(&mut self, area: &mut [T]) -> Option<usize>
        ensures { IfSome result (λ n. n ≤ length area.new) }
    {
        let text = self.next_field()?;
        if text == b"-".as_slice() {
            return Some(0);
        }
        let count = text.len() / T::DIGITS;
        if count == 0 || text.len() % T::DIGITS != 0 {
            return None;
        }
        let places = area.get_mut(..count)?;
        for (place, digits) in places.iter_mut().zip(text.chunks_exact(T::DIGITS)) {
            *place = value(digits)?;
        }
        Some(count)
    }

    // A decimal number that is not too large, without a leading 0.
    pub(crate) fn number(&mut self, most: usize) -> Option<usize>
        ensures { IfSome result (λ n. n ≤ most) }
    {
        let text = self.next_field()?;
        if text.is_empty() || (text.len() > 1 && text[0] == b'0') {
            return None;
        }
        let mut n: usize = 0;
        for b in text {
            if !b.is_ascii_digit() {
                return None;
            }
            n = n.checked_mul(10)?.checked_add(usize::from(*b - b'0'))?;
        }
        (n <= most).then_some(n)
    }

    // That no field is left.
    pub(crate) fn end(&self) -> Option<()> {
        self.rest.is_none().then_some(())
    }
}
