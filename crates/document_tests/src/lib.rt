//! Tests of numbers, durations, calendars and CSV, of YAML texts, OpenSLO objects and catalogs.
//! Stands on the crates of numbers, documents, objects and catalogs, by public names; no code.
//! Promises that texts are read, written and kept as OpenSLO, YAML 1.2.2 and worked cases say.
#![tactic(auto)]

#[cfg(test)]
mod calendars;
#[cfg(test)]
mod catalog_history;
#[cfg(test)]
mod catalog_rules;
#[cfg(test)]
mod catalog_tables;
#[cfg(test)]
mod csv_texts;
#[cfg(test)]
mod decimals_and_fractions;
#[cfg(test)]
mod documents;
#[cfg(test)]
mod durations;
#[cfg(test)]
mod expectations;
#[cfg(test)]
mod names_and_texts;
#[cfg(test)]
mod object_faults;
#[cfg(test)]
mod object_tables;
#[cfg(test)]
mod object_values;
#[cfg(test)]
mod objective_faults;
#[cfg(test)]
mod openslo_examples;
#[cfg(test)]
mod tables;
#[cfg(test)]
mod written_nodes;
#[cfg(test)]
mod written_objects;
#[cfg(test)]
mod yaml_bytes;
#[cfg(test)]
mod yaml_profile;
#[cfg(test)]
mod yaml_tables;
#[cfg(test)]
mod yaml_texts;
