//! What is found out about a command before it is done.

use crate::tally::BatchTally;
use burn_core::State;
use catalog_terms::Binding;
use exact_fraction::{Bytes, Label, ZoneName};
use kept_sums::SumsPlan;
use object_terms::Kind;
use record_form::Rows;
use sample_book::{Exclusion, RowVerdict};
use slo_catalog::Catalog;
use zone_calendar::Zone;

/// An accepted command, with what was found out about it.
#[derive(Drop)]
pub enum Work {
    /// The catalog with the objects of the text, of which there are `applied`, and the sums that
    /// are kept with it.
    Define {
        text: Bytes,
        catalog: Catalog,
        applied: u64,
        plan: SumsPlan,
    },
    /// The catalog without the object, and the sums that are kept with it.
    Remove {
        kind: Kind,
        name: Label,
        catalog: Catalog,
        plan: SumsPlan,
    },
    /// The zone that the bytes are.
    PutZone {
        name: ZoneName,
        bytes: Bytes,
        zone: Zone,
    },
    /// What becomes of the rows, counted and one by one.
    Samples {
        rows: Rows,
        tally: BatchTally,
        verdicts: Vec<RowVerdict>,
    },
    Exclude(Exclusion),
    Lift(Label),
    /// Each binding with its state at the moment, and those of them that are told.
    Tick {
        states: Vec<(Binding, State)>,
        told: Vec<(Binding, State)>,
    },
    Take(u32),
    Upgrade,
}
