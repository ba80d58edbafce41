//! The objects of OpenSLO v1 in words: the seven kinds as types with their ranges, the table of
//! each map, and the rules that its fields may break.
//! Stands on the words of the YAML profile, and on names, decimals, durations and civil moments.
//! Promises nothing by itself: readers, writers and laws of objects are stated by these words.
#![tactic(auto)]

mod alert_condition;
mod alert_notification_target;
mod alert_policy;
mod data_source;
mod fault;
mod free_part;
pub mod keys;
mod kind;
mod metadata;
mod names;
mod object;
mod objective;
mod range_tests;
mod ranges;
mod service;
mod sli;
mod slo;
mod window;
mod words;

pub use alert_condition::{AlertCondition, Condition, ConditionKind};
pub use alert_notification_target::AlertNotificationTarget;
pub use alert_policy::AlertPolicy;
pub use data_source::DataSource;
pub use fault::{DOCUMENT, ObjectFault, ReadError, Rule};
pub use free_part::FreePart;
pub use kind::Kind;
pub use metadata::Metadata;
pub use names::Names;
pub use object::{Body, Object, Objects};
pub use objective::{Objective, Objectives};
pub use ranges::{AlertAfter, Lookback, SliceTarget, SliceWidth, Target, Threshold, WindowLength};
pub use service::Service;
pub use sli::{Events, Metric, MetricSource, Ratio, RatioMetric, RawType, Sli};
pub use slo::{BudgetingMethod, Slo};
pub use window::{Calendar, TimeWindow};
pub use words::is_word;
