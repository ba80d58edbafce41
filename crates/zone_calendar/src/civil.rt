//! Civil moments and their texts.
ghost use Rattle.std.specs.Prelude.{◌≡◌, ◌<◌, pos};
ghost use Rattle.std.specs.Int.{IsInRange};
ghost use Rattle.jiff_core.specs.Calendar.{IsBetween, days_in_month};

/// A moment of the civil clock: a real date of the years 1971 to 2097 with a real time of day. The
/// office's clock ends in 2097, and from 1971 on no zone puts a moment before 1970.
#[derive(Clone, Copy, Debug, PartialEq, Eq)]
pub struct Civil {
    pub year: i16,
    pub month: u8,
    pub day: u8,
    pub hour: u8,
    pub minute: u8,
    pub second: u8,
    pub ghost year_in: { IsBetween (pos 1971) (pos 2097) year },
    pub ghost month_in: { IsInRange 1 12 month },
    pub ghost day_in: { IsInRange 1 (days_in_month year month) day },
    pub ghost hour_in: { hour < 24 },
    pub ghost minute_in: { minute < 60 },
    pub ghost second_in: { second < 60 },
}
