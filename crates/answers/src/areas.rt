// Lent areas: values are written to the first places, and the other places stay.
ghost use Rattle.std.specs.Prelude.{◌≡◌, ◌≤◌, pos, length, take};
ghost use Rattle.answers.specs.Areas.{written, cleared};

// Place by place, since the places of the two are known to be others: what is compiled of std's own copying is a call of memmove in some callers, and this one of memcpy.
fn copy<T: Copy>(area: &mut [T], values: &[T], count: usize)
    requires in_area { count ≤ length area.old }
    requires in_values { count ≤ length values.now }
    ensures { area.new ≡ written (take count values.now) area.old }
{
    for i in 0..count {
        area[i] = values[i];
    }
}

// Asks that the count is at most both lengths.
pub fn copy_words(area: &mut [u64], values: &[u64], count: usize)
    requires count_in_bounds { count ≤ length area.old }
    requires count_in_bounds_2 { count ≤ length values.now }
    ensures { area.new ≡ written (take count values.now) area.old }
{
    copy(area, values, count);
}

// Asks that the count is at most both lengths.
pub fn copy_coefficients(area: &mut [i64], values: &[i64], count: usize)
    requires count_in_bounds { count ≤ length area.old }
    requires count_in_bounds_2 { count ≤ length values.now }
    ensures { area.new ≡ written (take count values.now) area.old }
{
    copy(area, values, count);
}

// Asks that the count is at most the area's length.
pub fn clear_words(area: &mut [u64], count: usize)
    requires { count ≤ length area.old }
    ensures { area.new ≡ cleared 0 count area.old }
{
    area[..count].fill(0u64);
}

// Asks that the count is at most the area's length.
pub fn clear_coefficients(area: &mut [i64], count: usize)
    requires { count ≤ length area.old }
    ensures { area.new ≡ cleared (pos 0) count area.old }
{
    area[..count].fill(0i64);
}
