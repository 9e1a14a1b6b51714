// The packed reader: the caller's bytes, and a place in them. Whatever is read of packed bytes is read through it.
ghost use Rattle.std.specs.Prelude.{◌≡◌, ◌+◌, ◌≤◌, length, take, drop, IfSome};
ghost use Rattle.algebra.specs.Limits.{variables};
ghost use Rattle.algebra.specs.Word.{word};
ghost use Rattle.numbers.specs.Number.{read_number};
ghost use Rattle.numbers.specs.Inside.Read.{item_of, read_from};

use algebra::Pattern;
use numbers::{Fault, Read};

#[derive(Clone, Copy)]
pub(crate) struct Reader<'a> {
    pub(crate) bytes: &'a [u8],
    pub(crate) at: usize,
}

impl<'a> Reader<'a> {
    // The number at the reader's place, which then is the one after it.
    #[inline(always)]
    pub(crate) fn item(&mut self) -> Result<u64, Fault>
        ensures item { read_from result self.new.at ≡ read_number self.old.bytes.now self.old.at }
        ensures bytes { self.new.bytes ≡ self.old.bytes }
    {
        let (value, next) = read_short(self.bytes, self.at)?;
        self.at = next;
        Ok(value)
    }

    // The eight bytes at the reader's place as one word, whatever they are, if there are so many. The place then is the one after them.
    #[inline(always)]
    pub(crate) fn word(&mut self) -> Option<u64>
        requires { self.old.at ≤ length self.old.bytes.now }
        ensures word { IfSome result (λ w. (self.old.at + variables ≤ length self.old.bytes.now)
            × (w ≡ word (take variables (drop self.old.at self.old.bytes.now))) × (self.new.at ≡ self.old.at + variables)) }
        ensures bytes { self.new.bytes ≡ self.old.bytes }
    {
        if self.bytes.len() - self.at < Pattern::VARIABLES as usize {
            return None;
        }
        let word = word_at(self.bytes, self.at);
        self.at += Pattern::VARIABLES as usize;
        Some(word)
    }
}

// The number at a place of the bytes, and the place after it.
pub fn read_item(bytes: &[u8], at: usize) -> Read
    ensures { item_of result ≡ read_number bytes.now at }
{
    let mut reader = Reader { bytes, at };
    let value = reader.item()?;
    Ok((value, reader.at))
}

// One byte, or two, are the usual case, and are seen here, in the loops that read.
#[inline(always)]
fn read_short(bytes: &[u8], at: usize) -> Read
    ensures { item_of result ≡ read_number bytes.now at }
{
    if at < bytes.len() {
        let low = bytes[at] as u64;
        if low < 128 {
            return Ok((low, at + 1));
        }
        if at + 1 < bytes.len() {
            let high = bytes[at + 1] as u64;
            if high > 0 && high < 128 {
                return Ok((low - 128 + 128 * high, at + 2));
            }
        }
    }
    // A longer number, or a fault: the bytes end, or a last group is 0.
    numbers::read_number(bytes, at)
}

// The bytes of a word, the highest first.
fn word_at(bytes: &[u8], at: usize) -> u64
    requires { at + variables ≤ length bytes.now }
    ensures { result ≡ word (take variables (drop at bytes.now)) }
{
    let mut word = [0u8; Pattern::VARIABLES as usize];
    word.copy_from_slice(&bytes[at..at + Pattern::VARIABLES as usize]);
    u64::from_be_bytes(word)
}
