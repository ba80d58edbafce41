//! Following, words: how an input of feeds is read over an office, and what that comes to.
//! Stands on the entries of a history and on feeds of their records; definitions alone.
//! Promises nothing by itself: the laws of following and the loop over an input say the rest.
#![tactic(auto)]

mod follow_end;

pub use follow_end::FollowEnd;
