//! The minute that is asked about.
ghost use Rattle.std.specs.Prelude.{◌≡◌, ◌||◌, nat_lt};
ghost use Rattle.office_history.specs.Answers.{asked_at as asked_at_def};

use office_derived::Derived;

/// The minute that is given, or else the moment.
pub(crate) fn asked_at(moment: u32, at: Option<u32>) -> u32
    ensures { result ≡ asked_at_def moment at }
{
    match at {
        Some(at) => at,
        None => moment,
    }
}

/// Whether a minute isn't between the origin and the moment.
pub(crate) fn is_outside(derived: &Derived, moment: u32, at: u32) -> bool
    ensures { result ≡ (nat_lt at derived.now.origin || nat_lt moment at) }
{
    at < derived.origin || moment < at
}
