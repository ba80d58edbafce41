//! The windows of SLOs.

use crate::ranges::WindowLength;
use exact_fraction::ZoneName;
use zone_calendar::Civil;

/// The span over which a budget is counted.
#[derive(Debug, Drop)]
pub struct TimeWindow {
    pub duration: WindowLength,
    /// Omitted is false.
    pub is_rolling: Option<bool>,
    /// Where a calendar window begins; none for a rolling one.
    pub calendar: Option<Calendar>,
}

/// The first start of calendar windows.
#[derive(Debug, Drop)]
pub struct Calendar {
    pub start_time: Civil,
    pub time_zone: ZoneName,
}
