// The parts of an answer's line, written at a place of an area. Each function answers the place after what it wrote.
// Area and place are two parameters: a struct of both would have to say in each contract which area it holds.
ghost use Rattle.std.specs.Prelude.{◌≡◌, ◌+◌, ◌*◌, ◌≤◌, ◌<◌, length};
ghost use Rattle.std.proofs.lemmas.List.Edits.{sets};
ghost use Rattle.replay.specs.Hex.{hex_digits, in_hex, Writes};

use crate::filling::Fate;
use crate::places::Place;
use crate::telling::HostRefusal;
use numbers::bytes::write_bytes;

fn write_number(out: &mut [u8], at: usize, n: usize) -> usize
    requires { at + 20 ≤ length out.old }
    ensures upper_bound { result ≤ at + 20 }
    ensures writes { Writes 10 1 n out.old at result out.new }
{
    let mut text = [0u8; 20];
    let length = io::decimal(n as u64, &mut text);
    write_bytes(out, at, &text[..length])
}

fn write_value<T: Place>(out: &mut [u8], at: usize, value: T) -> usize
    requires { at + T.DIGITS ≤ length out.old }
    ensures value { result ≡ at + T.DIGITS }
    ensures out_after { out.new ≡ sets out.old at (hex_digits T.DIGITS (T.bits value)) }
{
    let mut text = [0u8; 16];
    let length = io::hex(value.bits(), T::DIGITS, &mut text);
    write_bytes(out, at, &text[..length])
}

fn write_values<T: Place>(out: &mut [u8], at: usize, values: &[T]) -> usize
    requires { at + T.DIGITS * length values.now ≤ length out.old }
    ensures value { result ≡ at + T.DIGITS * length values.now }
    ensures out_after { out.new ≡ sets out.old at (in_hex T.DIGITS T.bits values.now) }
{
    let mut place = at;
    for v in values {
        place = write_value(out, place, *v);
    }
    place
}

// A field of what was written: a minus for none.
pub(crate) fn values<T: Place>(out: &mut [u8], at: usize, values: &[T]) -> usize
    requires { at + T.DIGITS * length values.now + 2 ≤ length out.old }
    ensures { result ≤ at + T.DIGITS * length values.now + 2 }
{
    if values.is_empty() {
        return write_bytes(out, at, b" -");
    }
    out[at] = b' ';
    write_values(out, at + 1, values)
}

pub(crate) fn fate(out: &mut [u8], at: usize, fate: Fate) -> usize
    requires { at + 7 ≤ length out.old }
    ensures { result ≤ at + 7 }
{
    write_bytes(out, at, fate.words())
}

// The first words of a line.

pub(crate) fn done(out: &mut [u8], n: usize) -> usize
    requires { 25 ≤ length out.old }
    ensures { result ≤ 25 }
{
    let at = write_bytes(out, 0, b"done ");
    write_number(out, at, n)
}

pub(crate) fn refused(out: &mut [u8], told: HostRefusal) -> usize
    requires { 49 ≤ length out.old }
    ensures { result ≤ 49 }
{
    let at = write_bytes(out, 0, b"refused ");
    let after = write_number(out, at, told.refusal);
    out[after] = b' ';
    write_number(out, after + 1, told.place)
}

// A whole line.
pub(crate) fn unknown(out: &mut [u8]) -> usize
    requires { 8 ≤ length out.old }
    ensures { result ≤ 8 }
{
    write_bytes(out, 0, b"unknown\n")
}

// The end of a line.
pub(crate) fn end(out: &mut [u8], at: usize) -> usize
    requires { at < length out.old }
    ensures { result ≡ at + 1 }
{
    out[at] = b'\n';
    at + 1
}
