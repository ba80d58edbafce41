//! How the fields of maps are read: scalars, lists, inline objects, and the lines of tables.
//! Stands on the words of objects: each line of a table is read and refused as its definition says.
//! Promises the value of each field, or the first fault.
#![tactic(auto)]

mod durations;
mod field_lines;
mod fields;
mod forms;
mod inline;
mod lists;
mod moments;
mod scalars;
mod shape;

pub use durations::{
    LookbackForm, NumberForm, PercentForm, SliceTargetForm, TargetForm, ThresholdForm, WaitForm,
    WindowLengthForm, duration_at, in_range,
};
pub use field_lines::{
    one_of, optional, optional_alone, required, required_unless, required_where,
};
pub use fields::{close_with, fail_at};
pub use forms::{Free, ReadForm, ReadText};
pub use inline::{MetadataForm, inline_name, object_with, referenced};
pub use lists::{ReadItem, names_of};
pub use moments::MomentForm;
pub use scalars::{
    BooleanForm, DescriptionForm, KindForm, NameForm, OpForm, TextForm, VersionForm, ZoneForm,
};
pub use shape::{is_null, item_count, list_items, map_entries, only_item, scalar_text};
