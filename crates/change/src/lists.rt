// The list of a substitution, read once and to its end. The terms of pair j are kept in the part of both work areas that starts at 128 × j.
// What is written stays two slices, as in `lib`.
ghost use Rattle.std.specs.Prelude.{◌≡◌, ◌≤◌, Err, length};
ghost use Rattle.algebra.specs.Limits.{variables, work_places};
ghost use Rattle.answers.specs.Answers.{told};
ghost use Rattle.change.specs.Pairs.{read_pairs, read_list};
ghost use Rattle.change.specs.Inside.Kept.{listed_of, of_item, list_fault, Leaves};

use algebra::{MOST_TERMS, Pattern};
use answers::{Refusal, Refused};
use numbers::Fault;

// What is at fault in a list.
#[derive(Clone, Copy, Debug, PartialEq, Eq)]
pub enum ListFault {
    // It ends too soon: its length.
    Ended(usize),
    // The place of an item at fault, or of bytes that are left over.
    Damaged(usize),
    // The place of a number that is no variable's.
    Unknown(usize),
}

impl From<Fault> for ListFault {
    ghost from_gives = { λ item e. e ≡ of_item item };

    fn from(item: Fault) -> ListFault {
        match item {
            Fault::Cut(place) => ListFault::Ended(place),
            Fault::Bad(place) => ListFault::Damaged(place),
        }
    }
}

impl From<ListFault> for Refused {
    ghost from_gives = { λ met e. told (Err e) ≡ list_fault (listed_of (Err met)) };

    fn from(met: ListFault) -> Refused {
        match met {
            ListFault::Ended(place) | ListFault::Damaged(place) => Refusal::List.at(place),
            ListFault::Unknown(place) => Refusal::Variable.at(place),
        }
    }
}

// A pair that was read: its variable, and how many terms are kept of its sum.
#[derive(Clone, Copy, Debug, Default, PartialEq, Eq)]
pub struct Entry {
    pub variable: u64,
    pub terms: usize,
}

// The number of pairs, and the place after them.
type Listed = Result<(usize, usize), ListFault>;

// `count` pairs. A variable's number is judged before the sum that follows it is looked at.
fn read_pairs(
    list: &[u8],
    at: usize,
    count: usize,
    entries: &mut [Entry],
    patterns: &mut [u64],
    coefficients: &mut [i64],
) -> Listed
    requires few { count ≤ variables }
    requires entries_room { variables ≤ length entries.old }
    requires patterns_room { work_places ≤ length patterns.old }
    requires coefficients_room { work_places ≤ length coefficients.old }
    ensures { Leaves (read_pairs variables count list.now at) (listed_of result) patterns.old coefficients.old
        entries.new patterns.new coefficients.new }
{
    let mut place = at;
    for j in 0..count {
        let (variable, next) = packed::reader::read_item(list, place)?;
        if variable >= Pattern::VARIABLES {
            return Err(ListFault::Unknown(place));
        }
        let start = MOST_TERMS * j;
        let end = start + MOST_TERMS;
        let (n, after) = packed::read_sum(
            list,
            next,
            &mut patterns[start..end],
            &mut coefficients[start..end],
        )?;
        entries[j] = Entry {
            variable,
            terms: n as usize,
        };
        place = after;
    }
    Ok((count, place))
}

// The whole list.
pub(crate) fn read_list(
    list: &[u8],
    entries: &mut [Entry],
    patterns: &mut [u64],
    coefficients: &mut [i64],
) -> Listed
    requires entries_room { variables ≤ length entries.old }
    requires patterns_room { work_places ≤ length patterns.old }
    requires coefficients_room { work_places ≤ length coefficients.old }
    ensures { Leaves (read_list variables list.now) (listed_of result) patterns.old coefficients.old
        entries.new patterns.new coefficients.new }
{
    let (count, next) = packed::reader::read_item(list, 0)?;
    if count > Pattern::VARIABLES {
        return Err(ListFault::Damaged(0));
    }
    let (pairs, end) = read_pairs(list, next, count as usize, entries, patterns, coefficients)?;
    if end < list.len() {
        return Err(ListFault::Damaged(end));
    }
    Ok((pairs, end))
}
