//! Tests of a machine over small histories: the sums and the lines that it keeps.
//! Stands on `office_core`, and calls it as its users do.
//! Promises nothing by itself: each expected value was worked out apart from the code.
#![tactic(auto)]

#[cfg(test)]
mod lent_lines;
#[cfg(test)]
mod lent_sums;
#[cfg(test)]
mod shop;
