//! Values by the number of a day.
ghost use Rattle.std.specs.Prelude.{◌≡◌, nat_eq, IfSome, Some};
ghost use Rattle.std.specs.Map.{lookup};
ghost use Rattle.std.specs.Option.{option_copied};

use indexmap::IndexMap;

/// The value of a day: none exactly where the day isn't there. Where days came one after another
/// it is found at its place, without a hash.
#[inline(always)]
pub fn value_on<V>(days: &IndexMap<u32, V>, day: u32) -> Option<&V>
    ensures { option_copied result ≡ lookup (nat_eq day) days.now.entries }
{
    match value_near(days, day) {
        Some(value) => Some(value),
        None => value_by_key(days, day),
    }
}

/// The value of a day by its hash. Not inlined: most days are found at their place.
#[inline(never)]
fn value_by_key<V>(days: &IndexMap<u32, V>, day: u32) -> Option<&V>
    ensures { option_copied result ≡ lookup (nat_eq day) days.now.entries }
{
    days.get(&day)
}

/// The value of a day that is as far behind the first one as there are others between them.
#[inline(always)]
fn value_near<V>(days: &IndexMap<u32, V>, day: u32) -> Option<&V>
    ensures { IfSome result (λ value. lookup (nat_eq day) days.now.entries ≡ Some value.now) }
{
    let (first, _) = days.first()?;
    let (found, value) = days.get_index(day.wrapping_sub(*first) as usize)?;
    if *found == day { Some(value) } else { None }
}
