//! The objects of OpenSLO v1 that a document stands for.
//! Stands on the readers of fields, and reads each map line by line, as its table has them.
//! Promises which nodes are objects, which objects they are, and the first fault of any other node.
#![tactic(auto)]

mod alert_condition;
mod alert_notification_target;
mod alert_policy;
mod data_source;
mod document;
mod objective;
mod service;
mod sli;
mod slo;
mod window;

pub use document::read_object;
