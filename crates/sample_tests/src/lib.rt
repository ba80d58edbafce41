//! Tests of what stands between a row and a notice: readings, sums, burn rates, alerts; `budget`.
//! Stands on the crates from `slice_method` up to `notice_box` and on `budget`, as users call them.
//! Promises nothing by itself: each expected value was worked out apart from the code.
#![tactic(auto)]

#[cfg(test)]
mod added_events;
#[cfg(test)]
mod alert_lines;
#[cfg(test)]
mod budget_pieces;
#[cfg(test)]
mod burn_rates;
#[cfg(test)]
mod counted_minutes;
#[cfg(test)]
mod expectations;
#[cfg(test)]
mod kept_samples;
#[cfg(test)]
mod leaf_pages;
#[cfg(test)]
mod notices;
#[cfg(test)]
mod readings;
#[cfg(test)]
mod row_words;
#[cfg(test)]
mod sums_of_windows;
