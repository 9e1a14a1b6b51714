// What a lent area is filled with before a case, and what has become of it afterwards.
ghost use Rattle.std.specs.Prelude.{◌≡◌, ◌↔◌, IsTrue, ◌≤◌, length};
ghost use Rattle.replay.specs.Limits.{most_bytes};
ghost use Rattle.replay.specs.Filling.{Holds, Stays, Cleared, FateIs};

use crate::places::Place;
use algebra::WORK_PLACES;

// What has become of an area.
#[derive(Clone, Copy, Debug, PartialEq, Eq)]
pub enum Fate {
    Stay,
    Zero,
    Spoilt,
}

impl Fate {
    // As a line says it.
    pub(crate) fn words(self) -> &'static [u8]
        ensures { length result.now ≤ 7 }
    {
        match self {
            Fate::Stay => b" stay",
            Fate::Zero => b" zero",
            Fate::Spoilt => b" spoilt",
        }
    }
}

pub(crate) fn fill<T: Place>(area: &mut [T])
    requires { length area.old ≤ most_bytes }
    ensures { Stays T.ZERO T.filled 0 area.new }
{
    for (i, place) in area.iter_mut().enumerate() {
        *place = T::filled(i);
    }
}

// Whether the places from one on hold what they were filled with.
pub(crate) fn stays<T: Place>(area: &[T], from: usize) -> bool
    requires { length area.now ≤ most_bytes }
    ensures { IsTrue result ↔ Stays T.ZERO T.filled from area.now }
{
    for i in from..area.len() {
        if area[i] != T::filled(i) {
            return false;
        }
    }
    true
}

// Whether the first places are zero.
fn zero<T: Place>(area: &[T], count: usize) -> bool
    requires { count ≤ length area.now }
    ensures { IsTrue result ↔ Holds T.ZERO (λ i. T.ZERO) 0 count area.now }
{
    area[..count].iter().all(|v| *v == T::ZERO)
}

// Of an area that takes a result: what was not written is from a place on.
pub(crate) fn result_fate<T: Place>(area: &[T], from: usize) -> Fate
    requires { length area.now ≤ most_bytes }
{
    if stays(area, from) {
        Fate::Stay
    } else {
        Fate::Spoilt
    }
}

// Of a work area.
pub(crate) fn work_fate<T: Place>(area: &[T]) -> Fate
    requires { length area.now ≤ most_bytes }
    ensures { FateIs (Stays T.ZERO T.filled 0 area.now) (Cleared T.ZERO T.filled area.now) result }
{
    if stays(area, 0) {
        return Fate::Stay;
    }
    if area.len() < WORK_PLACES {
        return Fate::Spoilt;
    }
    if zero(area, WORK_PLACES) && stays(area, WORK_PLACES) {
        return Fate::Zero;
    }
    Fate::Spoilt
}
