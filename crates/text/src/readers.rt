// The four readers, which call each other in a cycle: a sum in brackets leads back from the atom to the sum. The text that is left and the
// bracket levels that are left fall on the way round.
// Text, place and levels are three parameters: a struct that is lent round the cycle would have to say in each contract that the text stays.
ghost use Rattle.text.specs.Reader.{read_atom, read_factor, read_term, read_sum, in_brackets};
ghost use Rattle.text.specs.Inside.Laid.{Ready, Reads};

use crate::bytes;
use crate::laying::Layout;
use algebra::{LARGEST_WEIGHT, Pattern};
use nodes::Kind;

// What may be typed: a number up to the largest weight of a sum, an exponent up to the largest degree.
const LARGEST_NUMBER: u64 = LARGEST_WEIGHT;

const LARGEST_EXPONENT: u64 = Pattern::LARGEST_DEGREE;

// The place after what was read, whose own node is then the last of the table; or the place of a byte that cannot stand there, or of the end.
// All faults here are TEXT, so the place is all that an error says.
pub type Read = Result<usize, usize>;

// Terms with + or - between them; a minus may stand before the first.
#[cycle(grammar)]
#[tactic(auto, using(crate::proofs::Rules::calls))]
pub(crate) fn read_sum(text: &[u8], at: usize, levels: usize, table: &mut Layout) -> Read
    requires { Ready text.now at table.old.nodes }
    ensures { Reads (read_sum (in_brackets levels text.now) text.now at) text.now at table.old result table.new }
{
    let mut next = read_term(text, bytes::after_minus(text, at), levels, table)?;
    table.put_sign(bytes::peek(text, at));
    loop {
        let sign = bytes::peek(text, next);
        if !bytes::is_sign(sign) {
            return Ok(next);
        }
        let left = table.last();
        next = read_term(text, next + 1, levels, table)?;
        table.put_sign(sign);
        let right = table.last();
        table.put(Kind::Sum(left, right));
    }
}

// Factors with * between them.
#[cycle(grammar)]
#[tactic(auto, using(crate::proofs::Rules::calls))]
fn read_term(text: &[u8], at: usize, levels: usize, table: &mut Layout) -> Read
    requires { Ready text.now at table.old.nodes }
    ensures { Reads (read_term (in_brackets levels text.now) text.now at) text.now at table.old result table.new }
{
    let mut next = read_factor(text, at, levels, table)?;
    while bytes::peek(text, next) == b'*' {
        let left = table.last();
        next = read_factor(text, next + 1, levels, table)?;
        let right = table.last();
        table.put(Kind::Product(left, right));
    }
    Ok(next)
}

// An atom alone, or raised to an exponent.
#[cycle(grammar)]
#[tactic(auto, using(crate::proofs::Rules::calls))]
fn read_factor(text: &[u8], at: usize, levels: usize, table: &mut Layout) -> Read
    requires { Ready text.now at table.old.nodes }
    ensures { Reads (read_factor (in_brackets levels text.now) text.now at) text.now at table.old result table.new }
{
    let next = read_atom(text, at, levels, table)?;
    if bytes::peek(text, next) != b'^' {
        return Ok(next);
    }
    if !bytes::peek(text, next + 1).is_ascii_digit() {
        return Err(next + 1);
    }
    let exponent = bytes::read_number(text, next + 1, LARGEST_EXPONENT);
    let base = table.last();
    table.put(Kind::Power(base, exponent.value));
    Ok(exponent.next)
}

// A number, a letter, or a sum in brackets, of which `levels` more levels may open.
#[cycle(grammar)]
#[tactic(auto, using(crate::proofs::Rules::calls))]
fn read_atom(text: &[u8], at: usize, levels: usize, table: &mut Layout) -> Read
    requires { Ready text.now at table.old.nodes }
    ensures { Reads (read_atom (in_brackets levels text.now) text.now at) text.now at table.old result table.new }
{
    let b = bytes::peek(text, at);
    if b == b'(' {
        if levels == 0 {
            return Err(at);
        }
        let next = read_sum(text, at + 1, levels - 1, table)?;
        if bytes::peek(text, next) != b')' {
            return Err(next);
        }
        return Ok(next + 1);
    }
    if b.is_ascii_digit() {
        let number = bytes::read_number(text, at, LARGEST_NUMBER);
        table.put(Kind::Integer(number.value as i64));
        return Ok(number.next);
    }
    let v = bytes::letter_of(b).ok_or(at)?;
    table.put(Kind::Variable(v));
    Ok(at + 1)
}
