//! The sums that a plan wants, kept, and those that it brings, taken.
ghost use Rattle.std.specs.Prelude.{◌⊎◌, ◌-◌, ◌≤◌, Bool, List, false, length, true};
ghost use Rattle.std.specs.Prelude.{vec_capacity, vec_len};
ghost use Rattle.std.specs.Bool.{Decides};
ghost use Rattle.std.specs.List.{AllByRecursion, Contains};
ghost use Rattle.sample_book.specs.declared.Exclusion.{Exclusion};
ghost use Rattle.sample_book.specs.declared.Row.{Row};
ghost use Rattle.office_history.specs.declared.Measure.{Measure};
ghost use Rattle.kept_sums.specs.Objectives.{AreKept, key_by, keys_by};
ghost use Rattle.kept_sums.specs.Plans.{IsReady, wanted_keys};
ghost use Rattle.kept_sums.specs.declared.kept.ObjectiveSums.{ObjectiveSums};

use crate::kept::{KeptSums, ObjectiveSums, name_by};
use crate::plan::{ListPlan, SumsPlan};

/// Keeps what a plan wants of the sums that were there and of those that it brings, with no memory.
/// What is kept then stands in the order of the names in which it is looked for.
fn take_list(objectives: &mut Vec<ObjectiveSums>, pool: bool, mut plan: ListPlan)
    requires room { length plan.made.items
        ≤ vec_capacity objectives.old - vec_len objectives.old }
    ensures sums { (made : List (Exclusion × Bool)) (rows : List Row)
        → AreKept made rows objectives.old.items → AreKept made rows plan.made.items
        → AreKept made rows objectives.new.items }
    ensures wanted { AllByRecursion (λ (kept : ObjectiveSums).
        Contains (wanted_keys pool plan) (key_by pool kept.measure)) objectives.new.items }
    ensures there { (key : Measure) → Contains (wanted_keys pool plan) key
        → Contains (keys_by pool objectives.old.items) key
        ⊎ Contains (keys_by pool plan.made.items) key
        → Contains (keys_by pool objectives.new.items) key }
{
    objectives.append(&mut plan.made).unwrap();
    objectives.retain(
        |kept: &ObjectiveSums| -> bool
            ensures { Decides result
                (Contains (wanted_keys pool plan) (key_by pool kept.now.measure)) }
        { plan.wants(pool, &kept.measure) },
    );
    objectives.sort_unstable_by_key(|kept| name_by(pool, &kept.measure));
}

impl KeptSums {
    /// Keeps what a plan wants of the sums that were there and of those that it brings. There is
    /// room for these, and no memory is taken.
    pub fn take(&mut self, plan: SumsPlan)
        requires ready { IsReady self.old plan }
        ensures own { (made : List (Exclusion × Bool)) (rows : List Row)
            → AreKept made rows self.old.own → AreKept made rows plan.own.made.items
            → AreKept made rows self.new.own }
        ensures pooled { (made : List (Exclusion × Bool)) (rows : List Row)
            → AreKept made rows self.old.pooled → AreKept made rows plan.pooled.made.items
            → AreKept made rows self.new.pooled }
        ensures own_wanted { AllByRecursion (λ (kept : ObjectiveSums).
            Contains (wanted_keys false plan.own) (key_by false kept.measure)) self.new.own }
        ensures pooled_wanted { AllByRecursion (λ (kept : ObjectiveSums).
            Contains (wanted_keys true plan.pooled) (key_by true kept.measure)) self.new.pooled }
        ensures own_there { (key : Measure) → Contains (wanted_keys false plan.own) key
            → Contains (keys_by false self.new.own) key }
        ensures pooled_there { (key : Measure) → Contains (wanted_keys true plan.pooled) key
            → Contains (keys_by true self.new.pooled) key }
    {
        let SumsPlan { own, pooled } = plan;
        take_list(&mut self.own, false, own);
        take_list(&mut self.pooled, true, pooled);
    }
}
