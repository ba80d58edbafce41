//! The metadata of objects.

use crate::free_part::FreePart;
use exact_fraction::{Label, Text};

/// The metadata of an object, as they stand in a document.
#[derive(Debug, Drop)]
pub struct Metadata {
    pub name: Label,
    pub display_name: Option<Text>,
    pub labels: Option<FreePart>,
    pub annotations: Option<FreePart>,
}
