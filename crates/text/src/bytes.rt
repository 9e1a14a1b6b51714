// Single bytes of a text, and the numbers in it.
ghost use Rattle.std.specs.Prelude.{◌≡◌, true, ◌≤◌, length};
ghost use Rattle.text.specs.Signs.{is_digit};
ghost use Rattle.text.specs.Letters.{letter_of};
ghost use Rattle.text.specs.Inside.Code.{letter_is};
ghost use Rattle.text.specs.Reader.{byte_at, takes, digits_at, is_sign, after_minus};

// The value of a number, and the place after its digits.
#[derive(Clone, Copy, Debug, PartialEq, Eq)]
pub struct Digits {
    pub value: u64,
    pub next: usize,
}

// The byte at a place, and 0 past the end: it stands in no formula, so one test does for a byte and for the end.
pub(crate) fn peek(text: &[u8], at: usize) -> u8
    ensures { result ≡ byte_at text.now at }
{
    text.get(at).copied().unwrap_or(0)
}

// Which byte names which variable.
#[tactic(auto, unfolding(crate::specs::Letters::letter_of))]
pub(crate) fn letter_of(b: u8) -> Option<u64>
    ensures { letter_is result ≡ letter_of b }
{
    match b {
        b'a'..=b'h' => Some(u64::from(b - b'a')),
        _ => None,
    }
}

#[tactic(auto, unfolding(crate::specs::Reader::is_sign))]
pub(crate) fn is_sign(b: u8) -> bool
    ensures { result ≡ is_sign b }
{
    matches!(b, b'+' | b'-')
}

// Where the first term of a sum begins.
#[tactic(auto, unfolding(crate::specs::Reader::after_minus))]
pub(crate) fn after_minus(text: &[u8], at: usize) -> usize
    requires { at ≤ length text.now }
    ensures { result ≡ after_minus text.now at }
{
    if peek(text, at) == b'-' { at + 1 } else { at }
}

// Whether a number takes one more digit.
#[tactic(auto, unfolding(crate::specs::Reader::takes, crate::specs::Signs::is_digit))]
fn takes_digit(top: u64, value: u64, b: u8) -> bool
    requires { 9 ≤ top }
    ensures { result ≡ takes top value b }
{
    // The value times ten might run over.
    value != 0 && b.is_ascii_digit() && value <= (top - u64::from(b - b'0')) / 10
}

// The number at a place where a digit stands. It stops before a digit that is too much.
#[tactic(auto, using(crate::proofs::ReadNumber::reading))]
pub(crate) fn read_number(text: &[u8], at: usize, top: u64) -> Digits
    requires at_value { is_digit (byte_at text.now at) ≡ true }
    requires le_top { 9 ≤ top }
    ensures value_is { result.value ≡ (digits_at top text.now at).value }
    ensures next_is { result.next ≡ (digits_at top text.now at).next }
{
    let mut value = u64::from(peek(text, at) - b'0');
    let mut next = at + 1;
    while takes_digit(top, value, peek(text, next)) {
        value = value * 10 + u64::from(peek(text, next) - b'0');
        next += 1;
    }
    Digits { value, next }
}
