//! Numbers, fractions and the small texts that name things.
//! Stands on the limits alone.
//! Promises what a text of digits is worth, fractions in lowest terms, names compared by words.
#![tactic(auto)]

mod decimal;
mod digits;
mod fraction;
mod inline_name;
mod label;
mod leaf;
mod op;
mod spelling;
mod text;
mod zone_name;

pub use decimal::{Decimal, DecimalFault, read_decimal};
pub use digits::{read_number, read_plain_number};
pub use fraction::{Fraction, write_fraction};
pub use label::{Label, read_label};
pub use leaf::Leaf;
pub use op::{Op, compare, holds};
pub use spelling::{write_decimal, write_percent};
pub use text::{Bytes, Text};
pub use zone_name::{ZoneName, read_zone_name};
