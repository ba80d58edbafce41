//! The units of a duration.
ghost use Rattle.std.specs.Prelude.{◌≡◌, ◌≤◌};

/// What a duration counts.
#[derive(Clone, Copy, Debug, PartialEq, Eq)]
pub enum Unit {
    Minute,
    Hour,
    Day,
    Week,
    Month,
    Quarter,
    Year,
}

impl Unit {
    ghost use Rattle.slo_duration.specs.Unit.{letter, unit_minutes, unit_of_letter};

    /// The unit of a letter: one of `m h d w M Q Y`.
    pub(crate) fn of_letter(byte: u8) -> Option<Unit>
        ensures { result ≡ unit_of_letter byte }
    {
        match byte {
            b'm' => Some(Unit::Minute),
            b'h' => Some(Unit::Hour),
            b'd' => Some(Unit::Day),
            b'w' => Some(Unit::Week),
            b'M' => Some(Unit::Month),
            b'Q' => Some(Unit::Quarter),
            b'Y' => Some(Unit::Year),
            _ => None,
        }
    }

    /// The letter of the unit.
    pub(crate) fn letter(self) -> char
        ensures { result ≡ letter self }
    {
        match self {
            Unit::Minute => 'm',
            Unit::Hour => 'h',
            Unit::Day => 'd',
            Unit::Week => 'w',
            Unit::Month => 'M',
            Unit::Quarter => 'Q',
            Unit::Year => 'Y',
        }
    }

    /// How many minutes the unit counts for in rolling windows and lookbacks.
    pub(crate) fn minutes(self) -> u64
        ensures value { result ≡ unit_minutes self }
        ensures bound { result ≤ 525_600 }
    {
        match self {
            Unit::Minute => 1,
            Unit::Hour => 60,
            Unit::Day => 1_440,
            Unit::Week => 10_080,
            Unit::Month => 43_200,
            Unit::Quarter => 129_600,
            Unit::Year => 525_600,
        }
    }
}
