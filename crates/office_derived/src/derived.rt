//! What is kept beside the history.

use crate::zones::Zones;
use burn_core::State;
use catalog_terms::Binding;
use kept_sums::KeptSums;
use notice_box::NoticeBox;
use sample_book::SampleBook;
use slo_catalog::Catalog;

/// What the history comes to.
#[derive(Drop)]
pub struct Derived {
    /// The minute at which the history begins, since 1970-01-01T00:00Z.
    pub origin: u32,
    /// How many entries there are.
    pub entries: u32,
    /// The greatest moment, or the origin.
    pub present: u32,
    pub catalog: Catalog,
    pub zones: Zones,
    pub book: SampleBook,
    /// The sums of each objective of the catalog.
    pub sums: KeptSums,
    /// How many rows were new to their cell or newer than its row when they came.
    pub accepted: u32,
    /// Whether the history has an upgrade.
    pub upgraded: bool,
    pub notices: NoticeBox,
    /// Each binding with its state at the last tick.
    pub states: Vec<(Binding, State)>,
}
