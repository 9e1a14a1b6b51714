// A packed sum back as typed text.
// Begin with specs/Spelling.antt and specs/WriteText.antt, then with `write_text`. proofs/Mailed.antt has what a reader of the text may count on.
#![tactic(auto)]

ghost use Rattle.std.specs.Prelude.{◌≡◌, ◌≤◌, length};
ghost use Rattle.algebra.specs.Limits.{most_terms};
ghost use Rattle.answers.specs.Answers.{told, outcome};
ghost use Rattle.numbers.specs.Item.{Item.got};
ghost use Rattle.packed.specs.Inside.Held.{read_count};
ghost use Rattle.spelling.specs.WriteText.{text_places, write_text};

use algebra::{MOST_TERMS, Terms};
use answers::{Answer, Refusal};
use packed::FEW_TERMS;

mod letters;
mod terms;

// What the area needs, whatever the sum.
pub const TEXT_PLACES: usize = 8192;

// The text of the `count` terms after a sum's count. They go through two arrays of N places: the area is written when nothing can be refused any more.
fn write_by<const N: usize>(bytes: &[u8], at: usize, count: usize, area: &mut [u8]) -> Answer
    requires places { N ≤ most_terms }
    requires count_in_bounds { count ≤ N }
    requires counted { read_count bytes.now 0 ≡ got count at }
    requires room { text_places ≤ length area.old }
    ensures { outcome (told result) area.new ≡ write_text bytes.now area.old }
{
    let mut patterns = [0u64; N];
    let mut coefficients = [0i64; N];
    packed::take_whole(bytes, at, count, &mut patterns, &mut coefficients)?;
    let sum = Terms::first(count, &patterns, &coefficients);
    Ok(terms::write_sum(area, sum))
}

// Writes the text of a packed sum. Few terms go through small arrays: to clear large ones would take longer than to write the text.
pub fn write_text(bytes: &[u8], area: &mut [u8]) -> Answer
    ensures { outcome (told result) area.new ≡ write_text bytes.now area.old }
{
    if area.len() < TEXT_PLACES {
        return Err(Refusal::Room.at(0));
    }
    let (number, next) = packed::read_count(bytes, 0).map_err(packed::sum_at_fault)?;
    let n = number as usize;
    if n <= FEW_TERMS {
        write_by::<FEW_TERMS>(bytes, next, n, area)
    } else {
        write_by::<MOST_TERMS>(bytes, next, n, area)
    }
}
