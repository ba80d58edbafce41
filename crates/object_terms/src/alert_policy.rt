//! Alert policies.

use crate::names::Names;
use exact_fraction::Text;

/// When an alert is told, and to whom.
#[derive(Debug, Drop)]
pub struct AlertPolicy {
    pub description: Option<Text>,
    pub alert_when_no_data: Option<bool>,
    pub alert_when_resolved: Option<bool>,
    pub alert_when_breaching: Option<bool>,
    /// The name of an AlertCondition, at most one.
    pub conditions: Option<Names>,
    /// The names of AlertNotificationTargets.
    pub notification_targets: Option<Names>,
}
