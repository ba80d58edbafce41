//! The requests that make an office anew, in words: which they are, how each is spelled, and which
//! object is too large for one. There is no code here, `specs/` is the crate.
//! Stands on what a history means, and on the texts of requests.
//! Promises nothing by itself: what is exported and what an export makes are stated by these words.
#![tactic(auto)]
