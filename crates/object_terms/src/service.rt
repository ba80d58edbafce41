//! Services.

use exact_fraction::Text;

/// A service: what objectives are set for.
#[derive(Debug, Drop)]
pub struct Service {
    pub description: Option<Text>,
}
