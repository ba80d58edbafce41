//! Tests of records, of requests and answers on the wire, and of the sessions that they make.
//! Stands on the crates that it tests, and calls what they make public.
//! Promises nothing by itself: the tests show what no clause of those crates says.
#![tactic(auto)]

#[cfg(test)]
mod answers;
#[cfg(test)]
mod expectations;
#[cfg(test)]
mod records;
#[cfg(test)]
mod requests;
#[cfg(test)]
mod sessions;
