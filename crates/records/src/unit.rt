ghost use Rattle.std.specs.Prelude.{◌≡◌};
ghost use Rattle.records.specs.Unit.{in_unit, stop_in_unit, side_in_range};

use crate::finite::numbers;
use draw::ColorStop;

// Whether a number is from 0 to 1, by value: -0 is.
pub fn is_in_unit(x: f32) -> bool
    ensures { result ≡ in_unit x }
{
    0.0 <= x && x <= 1.0
}

// Whether each of the five numbers of a stop is from 0 to 1.
pub fn is_stop_in_unit(stop: &ColorStop) -> bool
    ensures { result ≡ stop_in_unit stop.now }
{
    numbers(stop).iter().all(|n| is_in_unit(*n))
}

// Whether a picture's side may be that long.
pub(crate) fn is_side(n: u32) -> bool
    ensures { result ≡ side_in_range n }
{
    1 <= n && n <= 65535
}
