// The areas that cases are read into and that operations are lent. They are made by a function, so that of what one holds no more is known to a caller than
// how long it is.
ghost use Rattle.std.specs.Prelude.{◌≡◌, length};

use crate::places::Place;

pub(crate) fn zeroed<T: Place, const N: usize>() -> [T; N]
    ensures { N ≡ length result }
{
    [T::ZERO; N]
}
