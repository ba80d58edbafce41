//! What becomes of the sums as a catalog takes the place of another.
ghost use Rattle.std.specs.Prelude.{◌≡◌, [], OnOk, map, true};
ghost use Rattle.std.specs.Bool.{Decides};
ghost use Rattle.std.specs.List.{Contains};
ghost use Rattle.office_history.specs.declared.Measure.{Measure};
ghost use Rattle.kept_sums.specs.Objectives.{key_by};
ghost use Rattle.kept_sums.specs.Plans.{HasEither, IsReady, IsThere, wanted_keys};

use crate::kept::{KeptSums, ObjectiveSums, has_key};
use crate::same::has_same_key;
use office_history::Measure;
use std::alloc::{AllocError, Global};

/// The sums that are wanted, each by an objective that has its key, and those of them that weren't
/// kept.
#[derive(Drop)]
pub struct ListPlan {
    pub wanted: Vec<Measure>,
    pub made: Vec<ObjectiveSums>,
}

/// The sums that are to be kept: those of SLOs that have exclusions, and the pooled ones.
#[derive(Drop)]
pub struct SumsPlan {
    pub own: ListPlan,
    pub pooled: ListPlan,
}

impl ListPlan {
    /// Nothing is wanted yet. Takes no memory.
    pub fn new(alloc: Global) -> ListPlan
        ensures wanted { result.wanted.items ≡ [] }
        ensures made { result.made.items ≡ [] }
    {
        ListPlan {
            wanted: Vec::new(alloc),
            made: Vec::new(alloc),
        }
    }

    /// Whether sums of this key are among those that are wanted.
    pub(crate) fn wants(&self, pool: bool, measure: &Measure) -> bool
        ensures { Decides result
            (Contains (wanted_keys pool self.now) (key_by pool measure.now)) }
    {
        is_wanted(&self.wanted, pool, measure)
    }
}

/// Whether sums of this key are among those that are wanted.
pub fn is_wanted(wanted: &[Measure], pool: bool, measure: &Measure) -> bool
    ensures { Decides result (Contains (map (key_by pool) wanted.now) (key_by pool measure.now)) }
{
    for other in wanted {
        if has_same_key(pool, other, measure) {
            return true;
        }
    }
    false
}

/// Whether sums are kept under the key of an objective, or come with a plan.
fn has_either(objectives: &[ObjectiveSums], pool: bool, plan: &ListPlan, measure: &Measure) -> bool
    ensures { result ≡ true → HasEither pool objectives.now plan.now (key_by pool measure.now) }
{
    let kept = has_key(objectives, pool, measure);
    if kept {
        return true;
    }
    has_key(&plan.made, pool, measure)
}

/// Whether all sums that are wanted are kept, or come with the plan.
fn is_there(objectives: &[ObjectiveSums], pool: bool, plan: &ListPlan) -> bool
    ensures { result ≡ true → IsThere pool objectives.now plan.now }
{
    for measure in &plan.wanted {
        let there = has_either(objectives, pool, plan, measure);
        if !there {
            return false;
        }
    }
    true
}

impl KeptSums {
    /// Makes room for the sums of a plan, all of which are kept or come with it. After an error
    /// they are as before.
    ///
    /// # Errors
    ///
    /// Memory ran out.
    pub fn make_ready(&mut self, plan: &SumsPlan) -> Result<(), AllocError>
        ensures own { self.new.own ≡ self.old.own }
        ensures pooled { self.new.pooled ≡ self.old.pooled }
        ensures ready { OnOk result (IsReady self.new plan.now) }
    {
        let own = is_there(&self.own, false, &plan.own);
        if !own {
            return Err(AllocError);
        }
        let pooled = is_there(&self.pooled, true, &plan.pooled);
        if !pooled {
            return Err(AllocError);
        }
        self.reserve(plan.own.made.len(), plan.pooled.made.len())
    }
}
