//! Objects as they are written: each map line by line, in the order of its table.

mod alerts;
mod document;
mod field_lines;
mod fields;
mod scalars;
mod service;
mod sli;
mod slo;
mod words;

pub use document::{object_length, write_object};
