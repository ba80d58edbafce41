//! How a method cuts time into slices.
ghost use Rattle.std.specs.Prelude.{◌≡◌, ◌/◌, ◌<◌, ◌≤◌};
ghost use Rattle.std.specs.Int.{◌∣◌};
ghost use Rattle.window_sums.specs.Slices.{slices_a_day, width_of};

use slice_method::Method;

/// The minutes of an hour.
const MINUTES_AN_HOUR: u32 = 60;

/// The hours of a day.
const HOURS_A_DAY: u32 = 24;

/// How many minutes a slice of a method has: a divisor of 60.
pub fn width_of(method: &Method) -> u32
    requires { width_of method.now ∣ 60 }
    ensures value { result ≡ width_of method.now }
    ensures some { 0 < result }
    ensures few { result ≤ 60 }
{
    match *method {
        Method::Occurrences => 1,
        Method::Timeslices { width, .. } | Method::RatioTimeslices { width } => width,
    }
}

/// How many slices a day has.
pub(crate) fn slices_a_day(method: &Method) -> u32
    requires { width_of method.now ∣ 60 }
    ensures value { result ≡ slices_a_day method.now }
    ensures some { 0 < result }
{
    HOURS_A_DAY * slices_an_hour(method)
}

/// How many slices an hour has.
pub(crate) fn slices_an_hour(method: &Method) -> u32
    requires { width_of method.now ∣ 60 }
    ensures value { result ≡ 60 / width_of method.now }
    ensures some { 0 < result }
    ensures few { result ≤ 60 }
{
    MINUTES_AN_HOUR / width_of(method)
}
