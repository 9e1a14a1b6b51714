// Whole numbers as bytes: in groups of seven bits, signed ones as codes; in decimal digits; and in two's complement.
// Begin with specs/Number.antt and specs/Code.antt, then with `read_number` and `code`.
#![tactic(auto)]

ghost use Rattle.std.specs.Prelude.{◌≡◌, ◌+◌, ◌≤◌, nat_abs, length};
ghost use Rattle.std.proofs.lemmas.List.Edits.{sets};
ghost use Rattle.numbers.specs.Number.{number_bytes, read_number};
ghost use Rattle.numbers.specs.Code.{code, decode};
ghost use Rattle.numbers.specs.Inside.Read.{item_of};

pub mod bytes;
pub mod decimal;

// What is at fault where bytes are read.
#[derive(Clone, Copy, Debug, PartialEq, Eq)]
pub enum Fault {
    // The bytes end too soon: the input's length.
    Cut(usize),
    // The place of a fault.
    Bad(usize),
}

// What was read, and the place after it. Those who read with it show a coefficient's code, a pattern's word or the number
// of a sum's terms: one type for all, since the definitions have one item of a number, and its laws serve each.
pub type Read = Result<(u64, usize), Fault>;

// The number at a place of the bytes. Readers see to numbers of one byte or two themselves, and this is not to be compiled into their loops.
#[inline(never)]
pub fn read_number(bytes: &[u8], at: usize) -> Read
    ensures { item_of result ≡ read_number bytes.now at }
{
    // How many groups may follow this one, the number so far, and what 1 in this group counts.
    let mut more: u64 = 9;
    let mut low: u64 = 0;
    let mut unit: u64 = 1;
    for place in at..bytes.len() {
        let byte = bytes[place] as u64;
        if more == 0 {
            if byte == 1 {
                return Ok((low + unit, place + 1));
            }
            return Err(Fault::Bad(at));
        }
        if byte < 128 {
            if byte == 0 {
                if at < place {
                    return Err(Fault::Bad(at));
                }
                return Ok((low, place + 1));
            }
            return Ok((low + unit * byte, place + 1));
        }
        low += unit * (byte - 128);
        unit *= 128;
        more -= 1;
    }
    Err(Fault::Cut(bytes.len()))
}

// Writes a number at a place of an area, and answers the place after it.
// Asks that the number's bytes fit at their place.
pub fn write_number(area: &mut [u8], at: usize, n: u64) -> usize
    requires { at + length (number_bytes n) ≤ length area.old }
    ensures { (result ≡ at + length (number_bytes n)) × (area.new ≡ sets area.old at (number_bytes n)) }
{
    // The place goes with the groups, whose number is not known before.
    let mut place = at;
    let mut left = n;
    while left >= 128 {
        area[place] = (128 + left % 128) as u8;
        left /= 128;
        place += 1;
    }
    area[place] = left as u8;
    place + 1
}

pub fn code(n: i64) -> u64
    ensures { result ≡ code n }
{
    let size = absolute(n);
    if n >= 0 {
        size * 2
    } else {
        // The size is 2^63 at most, and twice that would not fit.
        (size - 1) * 2 + 1
    }
}

pub fn decode(c: u64) -> i64
    ensures { result ≡ decode c }
{
    let half = (c / 2) as i64;
    if c % 2 == 0 { half } else { -half - 1 }
}

// The absolute value, that of -2^63 too. It stands by name: 01 names it beside `code` and `decode`, and an edit shows what a plain negation would be.
pub fn absolute(n: i64) -> u64
    ensures { result ≡ nat_abs n }
{
    n.unsigned_abs()
}
