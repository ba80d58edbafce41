//! Targets of notifications.

use exact_fraction::Text;

/// Whom an alert reaches.
#[derive(Debug, Drop)]
pub struct AlertNotificationTarget {
    pub description: Option<Text>,
    pub target: Text,
}
