//! The counts of the slices of one day, where they aren't their leaves.
ghost use Rattle.std.specs.Prelude.{◌≡◌, ◌<◌, IfOk, length, replicate, slice_index_or, slice_set};
ghost use Rattle.window_sums.specs.Slices.{no_counts};

use crate::counts::NO_COUNTS;
use slice_method::Counts;
use std::alloc::{AllocError, Global};
use std::marker::Model;

/// The counts of a day's slices.
#[derive(Drop)]
pub(crate) struct Day {
    slices: Vec<Counts>,
}

impl Model for Day {
    ghost use Rattle.std.specs.Prelude.{List};
    ghost use Rattle.slice_method.specs.declared.amount.Counts.{Counts};

    ghost Value = { List Counts };

    ghost view = { λ a. a.slices.items };
}

impl Day {
    /// A day in which nothing was counted.
    pub(crate) fn empty(alloc: Global, slices: usize) -> Result<Day, AllocError>
        ensures { IfOk result (λ day. day ≡ replicate slices NO_COUNTS) }
    {
        let slices = vec![in alloc; NO_COUNTS; slices]?;
        Ok(Day { slices })
    }

    /// The counts of a slice of the day.
    pub(crate) fn at(&self, place: usize) -> Counts
        requires { place < length self.now }
        ensures { result ≡ slice_index_or self.now place no_counts }
    {
        self.slices[place]
    }

    /// Puts the counts of a slice at its place.
    pub(crate) fn set(&mut self, place: usize, counts: Counts)
        requires { place < length self.old }
        ensures { self.new ≡ slice_set self.old place counts }
    {
        self.slices[place] = counts;
    }
}

impl Clone for Day {
    ghost is_clone = { λ day copy. copy ≡ day };

    fn clone(&self) -> Result<Day, AllocError> {
        let slices = Vec::from_slice(*self.slices.allocator(), &self.slices)?;
        Ok(Day { slices })
    }
}
