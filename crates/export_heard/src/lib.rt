//! Laws of what is heard in an export: the bytes that it prints are its requests.
//! Stands on the requests in words, on what a stream of messages is, and on what they stand for.
//! Promises that each part is heard as its requests, one after another, with nothing left over.
#![tactic(auto)]

pub mod laws;
