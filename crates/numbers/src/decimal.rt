// Numbers in decimal digits.
// Area and place are two parameters: a struct of both would have to say in each contract which area it holds.
ghost use Rattle.std.specs.Prelude.{◌≡◌, ◌+◌, ◌≤◌, ◌<◌, length};
ghost use Rattle.std.proofs.lemmas.List.Edits.{sets};
ghost use Rattle.numbers.specs.Decimal.{decimal, signed_decimal};
ghost use Rattle.numbers.specs.Inside.Digits.{two_digits, four_digits};

use crate::absolute;

// Two digits, of a number below 100. It answers the place after them.
fn write_two(area: &mut [u8], at: usize, n: u64) -> usize
    requires n_bound { n < 100 }
    requires at_in_bounds { at + 2 ≤ length area.old }
    ensures value { result ≡ at + 2 }
    ensures area_after { area.new ≡ sets area.old at (two_digits n) }
{
    area[at] = b'0' + (n / 10) as u8;
    let ones = at + 1;
    area[ones] = b'0' + (n % 10) as u8;
    ones + 1
}

// Four digits, of a number below 10,000. It answers the place after them.
fn write_four(area: &mut [u8], at: usize, n: u64) -> usize
    requires n_bound { n < 10000 }
    requires at_in_bounds { at + 4 ≤ length area.old }
    ensures value { result ≡ at + 4 }
    ensures area_after { area.new ≡ sets area.old at (four_digits n) }
{
    let low = write_two(area, at, n / 100);
    write_two(area, low, n % 100)
}

// Writes a number at a place of an area, and answers the place after it: the last digits after those of the number without them. Four go at once, since
// digit by digit, a sum of long numbers took half as long again to write.
// Asks that the digits fit at their place.
pub fn write_decimal(area: &mut [u8], at: usize, n: u64) -> usize
    requires { at + length (decimal n) ≤ length area.old }
    ensures value { result ≡ at + length (decimal n) }
    ensures area_after { area.new ≡ sets area.old at (decimal n) }
{
    if n < 10 {
        area[at] = b'0' + n as u8;
        return at + 1;
    }
    if n < 100 {
        return write_two(area, at, n);
    }
    if n < 10000 {
        let last = write_decimal(area, at, n / 100);
        return write_two(area, last, n % 100);
    }
    let last = write_decimal(area, at, n / 10000);
    write_four(area, last, n % 10000)
}

// The same for a signed number.
// Asks that its sign and its digits fit at their place.
pub fn write_signed(area: &mut [u8], at: usize, n: i64) -> usize
    requires { at + length (signed_decimal n) ≤ length area.old }
    ensures value { result ≡ at + length (signed_decimal n) }
    ensures area_after { area.new ≡ sets area.old at (signed_decimal n) }
{
    let size = absolute(n);
    if n >= 0 {
        return write_decimal(area, at, size);
    }
    area[at] = b'-';
    write_decimal(area, at + 1, size)
}
