//! Which number came after which: a guess of the one that comes next.
use std::alloc::{AllocError, Global};

/// The number that was used last, and the one that came after each number last time. Nothing rests
/// on them: what is guessed by them is compared.
#[derive(Drop)]
pub(crate) struct Turns {
    latest: u32,
    followers: Vec<u32>,
}

impl Turns {
    /// Of no numbers.
    pub(crate) fn new(alloc: Global) -> Turns {
        Turns {
            latest: 0,
            followers: Vec::new(alloc),
        }
    }

    /// The number that came after the latest one last time.
    pub(crate) fn next(&self) -> u32 {
        match self.followers.get(self.latest as usize) {
            Some(number) => *number,
            None => 0,
        }
    }

    /// Makes a place for what comes after so many numbers.
    pub(crate) fn make_place(&mut self, count: usize) -> Result<(), AllocError> {
        if self.followers.len() <= count {
            self.followers.extend_from_slice(&[0u32])?;
        }
        Ok(())
    }

    /// Notes that a number was used.
    pub(crate) fn note(&mut self, number: u32) {
        if let Some(follower) = self.followers.get_mut(self.latest as usize) {
            *follower = number;
        }
        self.latest = number;
    }
}
