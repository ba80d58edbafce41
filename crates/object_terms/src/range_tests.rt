//! Which values are in the range of a type.
ghost use Rattle.std.specs.Prelude.{◌≡◌};
ghost use Rattle.object_terms.specs.Ranges.{lookback_in, slice_target_in, target_in, threshold_in};
ghost use Rattle.object_terms.specs.Ranges.{wait_in, width_in, window_length_in};

use crate::ranges::{
    AlertAfter, Lookback, SliceTarget, SliceWidth, Target, Threshold, WindowLength,
};
use exact_fraction::Decimal;
use slo_duration::{Duration, rolling_minutes};
use slo_limits::{MAX_LOOKBACK, MAX_THRESHOLD, MAX_WINDOW, WHOLE};

impl Target {
    /// The target of a ratio, where it is below one.
    pub fn of(ratio: Decimal) -> Option<Target>
        ensures { result ≡ target_in ratio }
    {
        if ratio.billionths() < WHOLE {
            Some(Target { ratio })
        } else {
            None
        }
    }
}

impl SliceTarget {
    /// The target of a ratio, where it is above zero and at most one.
    pub fn of(ratio: Decimal) -> Option<SliceTarget>
        ensures { result ≡ slice_target_in ratio }
    {
        if 0 < ratio.billionths() && ratio.billionths() <= WHOLE {
            Some(SliceTarget { ratio })
        } else {
            None
        }
    }
}

impl SliceWidth {
    /// The width of so many minutes, where an hour has a whole number of them.
    pub fn of(minutes: u32) -> Option<SliceWidth>
        ensures { result ≡ width_in minutes }
    {
        if 0 < minutes && 60 % minutes == 0 {
            Some(SliceWidth { minutes })
        } else {
            None
        }
    }
}

impl Threshold {
    /// The threshold of a rate, where it is at most 10,000.
    pub fn of(rate: Decimal) -> Option<Threshold>
        ensures { result ≡ threshold_in rate }
    {
        if rate.billionths() <= MAX_THRESHOLD {
            Some(Threshold { rate })
        } else {
            None
        }
    }
}

impl Lookback {
    /// The lookback of a span, where it is at least a minute and at most 30 days.
    pub fn of(span: Duration) -> Option<Lookback>
        ensures { result ≡ lookback_in span }
    {
        if 0 < rolling_minutes(span) && rolling_minutes(span) <= MAX_LOOKBACK {
            Some(Lookback { span })
        } else {
            None
        }
    }
}

impl AlertAfter {
    /// The wait of a span, where it is at most 30 days.
    pub fn of(span: Duration) -> Option<AlertAfter>
        ensures { result ≡ wait_in span }
    {
        if rolling_minutes(span) <= MAX_LOOKBACK {
            Some(AlertAfter { span })
        } else {
            None
        }
    }
}

impl WindowLength {
    /// The length of a span, where it is at least a minute and at most 366 days.
    pub fn of(span: Duration) -> Option<WindowLength>
        ensures { result ≡ window_length_in span }
    {
        if 0 < rolling_minutes(span) && rolling_minutes(span) <= MAX_WINDOW {
            Some(WindowLength { span })
        } else {
            None
        }
    }
}
