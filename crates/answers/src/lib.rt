// What an operation answers: done with a number, or refused with a place.
// Begin with specs/Refusals.antt and specs/Answers.antt, then with `areas`: what is done to the first places of a lent area.
#![tactic(auto)]

ghost use Rattle.std.specs.Prelude.{◌≡◌, ◌≤◌, T};
ghost use Rattle.answers.specs.Refusals.{number};
ghost use Rattle.answers.specs.Answers.{told};
ghost use Rattle.answers.specs.Host.{host_number};
ghost use Rattle.answers.specs.Inside.Fits.{fits_host, largest_unit};

pub mod areas;

// Why an operation refuses, with the number that a caller gets who knows no enum.
#[derive(Clone, Copy, Debug, PartialEq, Eq)]
pub enum Refusal {
    Room = 1,
    Shape = 2,
    Node = 3,
    Degree = 4,
    Weight = 5,
    Spread = 6,
    Sum = 7,
    List = 8,
    Variable = 9,
    Reading = 10,
    Range = 11,
    Text = 12,
    Nodes = 13,
}

// A refusal, and the place that it is about.
#[derive(Clone, Copy, Debug, PartialEq, Eq)]
pub struct Refused {
    pub refusal: Refusal,
    pub place: usize,
}

// The number that the operation returns, or why it refuses.
pub type Answer = Result<usize, Refused>;

impl Refusal {
    // The refusal's number.
    pub fn number(self) -> usize
        ensures { result ≡ number self }
    {
        self as usize
    }

    // The refusal at a place.
    pub fn at(self, place: usize) -> Refused
        ensures { result ≡ record { refusal = self; place = place } }
    {
        Refused {
            refusal: self,
            place,
        }
    }
}

// What 1 of a refusal's number counts for a C host: of the estimate's, as the scope has it; and of every other function's, above every place and every
// number that an operation returns.
pub const NARROW_UNIT: u64 = 65536;

pub const WIDE_UNIT: u64 = 4294967296;

// The answer as one number for a C host: `unit` is what 1 of a refusal's number counts.
// Asks that the unit is at most 2^32, and that what is returned or a refusal's place is below it.
pub fn for_host(answer: Answer, unit: u64) -> u64
    requires unit_le_largest_unit { unit ≤ largest_unit }
    requires fits { T (fits_host unit (told answer)) }
    ensures { result ≡ host_number unit (told answer) }
{
    match answer {
        Ok(n) => n as u64,
        Err(refused) => (refused.refusal.number() as u64) * unit + refused.place as u64,
    }
}
