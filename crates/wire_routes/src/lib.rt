//! The requests that whole messages stand for, by the table of routes, their keys and their bodies.
//! Stands on `message_heads`, on `matchit` for paths, on `csv_records` and `serde_json` for bodies.
//! Promises exactly the request, or the answer that tells why there is none, and always one.
#![tactic(auto)]

mod cuts;
mod exclusion;
mod find;
mod keys;
pub mod laws;
mod method;
mod place;
mod query;
mod readers;
mod routed;
mod routing;
mod samples;
mod table;

pub use find::Routes;
pub use routed::Routed;
