//! Sums that are looked for where others stood.
ghost use Rattle.std.specs.Prelude.{◌≡◌, ◌<◌, ◌≤◌, IfSome, IsTrue, None, is_some, length};
ghost use Rattle.std.specs.Prelude.{true};
ghost use Rattle.kept_sums.specs.Found.{HasNoOwn, HasNoPooled, IsFound, IsTold};

use crate::kept::{KeptSums, ObjectiveSums, find_by, likely_place};
use crate::same::has_same_key;
use office_history::Measure;
use window_sums::WindowSums;

impl KeptSums {
    /// Where the pooled sums of an objective are best looked for: at the place of the objective
    /// before, at the next one, or where those of its indicator begin. Whoever goes over objectives
    /// in the order of their SLOs mostly finds each at one of the first two.
    pub fn place_near(&self, measure: &Measure, before: usize) -> usize
        ensures { result ≤ length self.now.pooled }
    {
        let next = before.saturating_add(1);
        if pooled_at(&self.pooled, before, measure).is_some() {
            return before;
        }
        if pooled_at(&self.pooled, next, measure).is_some() {
            return next;
        }
        likely_place(&self.pooled, true, measure)
    }

    /// The sums of an objective as `find` tells them, of which the pooled ones are looked for at a
    /// place first.
    pub fn find_at(&self, measure: &Measure, place: usize) -> Option<&WindowSums>
        ensures some { IfSome result (λ sums. IsTold self.now measure.now sums.now) }
        ensures own { result ≡ None → HasNoOwn self.now measure.now }
        ensures pooled { result ≡ None → HasNoPooled self.now measure.now }
    {
        match find_by(&self.own, false, measure) {
            Some(sums) => Some(sums),
            None => match pooled_at(&self.pooled, place, measure) {
                Some(sums) => Some(sums),
                None => find_by(&self.pooled, true, measure),
            },
        }
    }
}

/// The sums at a place, where they are pooled ones of an objective.
fn pooled_at<'a>(
    objectives: &'a [ObjectiveSums],
    place: usize,
    measure: &Measure,
) -> Option<&'a WindowSums>
    ensures found { IfSome result (λ sums. IsFound true objectives.now measure.now sums.now) }
    ensures within { IsTrue (is_some result) → place < length objectives.now }
{
    match objectives.get(place) {
        Some(kept) => {
            if has_same_key(true, &kept.measure, measure) {
                Some(&kept.sums)
            } else {
                None
            }
        }
        None => None,
    }
}
