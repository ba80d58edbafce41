//! The laws of the objects that documents stand for.
//! Stands on the tables of objects, and on the laws of written nodes.
//! Promises that written objects are read back, that one text is of one object, and what ties the
//! fields of an object.
#![tactic(auto)]

pub mod laws;
