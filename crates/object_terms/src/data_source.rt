//! Data sources.

use crate::free_part::FreePart;
use exact_fraction::Text;

/// Where metrics come from.
#[derive(Debug, Drop)]
pub struct DataSource {
    pub description: Option<Text>,
    /// The field `type`.
    pub type_text: Text,
    pub connection_details: Option<FreePart>,
}
