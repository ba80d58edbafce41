//! Tests of the outside's forms, of doors, messages, sessions and workers, and of the journal.
//! Stands on the crates that it tests, and calls what they make public.
//! Promises nothing by itself: the tests show what no clause of those crates says.
#![tactic(auto)]

#[cfg(test)]
mod disks;
#[cfg(test)]
mod gate_sinks;
#[cfg(test)]
mod heads;
#[cfg(test)]
mod journals;
#[cfg(test)]
mod memory_doors;
#[cfg(test)]
mod ports;
#[cfg(test)]
mod rows;
#[cfg(test)]
mod sessions;
#[cfg(test)]
mod sources_and_sinks;
#[cfg(test)]
mod workers;
