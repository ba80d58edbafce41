//! The sums of objectives, each beside what it counts.
ghost use Rattle.std.specs.Prelude.{◌≡◌, ◌≢◌, ◌≤◌, ◌++◌, ◌∷◌, [], IfSome, None, OnErr, OnOk};
ghost use Rattle.std.specs.Prelude.{false, length, true};
ghost use Rattle.std.specs.Bool.{Decides};
ghost use Rattle.std.specs.List.{AllByRecursion, Contains};
ghost use Rattle.kept_sums.specs.Found.{HasNoOwn, HasNoPooled, IsFound, IsTold};
ghost use Rattle.kept_sums.specs.Objectives.{key_by, keys_by};
ghost use Rattle.kept_sums.specs.declared.kept.ObjectiveSums.{ObjectiveSums};

use crate::same::has_same_key;
use exact_fraction::Label;
use office_history::Measure;
use std::alloc::{AllocError, Global};
use std::marker::Model;
use window_sums::WindowSums;

/// What an objective counts, and its sums.
#[derive(Drop)]
pub struct ObjectiveSums {
    pub measure: Measure,
    pub sums: WindowSums,
}

/// The sums of the objectives of a catalog. Those that count the same share theirs: objectives of
/// one SLO that differ in their targets alone, and objectives of all SLOs for which nothing is
/// excluded.
#[derive(Drop)]
pub struct KeptSums {
    /// The sums of SLOs that have exclusions, or had some.
    pub(crate) own: Vec<ObjectiveSums>,
    /// The sums of the other SLOs, from which nothing is excluded.
    pub(crate) pooled: Vec<ObjectiveSums>,
}

impl Model for KeptSums {
    ghost use Rattle.std.specs.Prelude.{◌-◌, vec_capacity, vec_len};
    ghost use Rattle.kept_sums.specs.Objectives.{KeptObjectives};

    ghost Value = { KeptObjectives };

    ghost view = { λ a. record {
      own = a.own.items;
      pooled = a.pooled.items;
      own_spare = vec_capacity a.own - vec_len a.own;
      pooled_spare = vec_capacity a.pooled - vec_len a.pooled;
    } };
}

impl KeptSums {
    /// No sums yet. Takes no memory.
    pub fn new(alloc: Global) -> KeptSums
        ensures own { result.own ≡ [] }
        ensures pooled { result.pooled ≡ [] }
    {
        KeptSums {
            own: Vec::new(alloc),
            pooled: Vec::new(alloc),
        }
    }

    /// Makes room for so many sums more of each. After an error they are as before.
    ///
    /// # Errors
    ///
    /// Memory ran out.
    pub fn reserve(&mut self, own: usize, pooled: usize) -> Result<(), AllocError>
        ensures own { self.new.own ≡ self.old.own }
        ensures pooled { self.new.pooled ≡ self.old.pooled }
        ensures own_spare { OnOk result (own ≤ self.new.own_spare) }
        ensures pooled_spare { OnOk result (pooled ≤ self.new.pooled_spare) }
    {
        self.own.reserve(own)?;
        self.pooled.reserve(pooled)
    }

    /// The sums of an objective: those of its SLO, where they are kept, and else the pooled ones.
    pub fn find(&self, measure: &Measure) -> Option<&WindowSums>
        ensures some { IfSome result (λ sums. IsTold self.now measure.now sums.now) }
        ensures own { result ≡ None → HasNoOwn self.now measure.now }
        ensures pooled { result ≡ None → HasNoPooled self.now measure.now }
    {
        match find_by(&self.own, false, measure) {
            Some(sums) => Some(sums),
            None => find_by(&self.pooled, true, measure),
        }
    }

    /// Whether sums of the objective's SLO are kept for it.
    pub fn has_own(&self, measure: &Measure) -> bool
        ensures { Decides result
            (Contains (keys_by false self.now.own) (key_by false measure.now)) }
    {
        has_key(&self.own, false, measure)
    }

    /// Whether pooled sums are kept for the objective.
    pub fn has_pooled(&self, measure: &Measure) -> bool
        ensures { Decides result
            (Contains (keys_by true self.now.pooled) (key_by true measure.now)) }
    {
        has_key(&self.pooled, true, measure)
    }

    /// Keeps sums of an SLO for an objective, behind the others. After an error all is as before.
    ///
    /// # Errors
    ///
    /// Memory ran out.
    pub fn add_own(&mut self, measure: &Measure, sums: WindowSums) -> Result<(), AllocError>
        ensures own { OnOk result (self.new.own ≡ self.old.own
            ++ record { measure = measure.now; sums = sums } ∷ []) }
        ensures err { OnErr result (self.new.own ≡ self.old.own) }
        ensures pooled { self.new.pooled ≡ self.old.pooled }
    {
        self.own.push(ObjectiveSums {
            measure: *measure,
            sums,
        })?;
        Ok(())
    }
}

/// The name by which sums are put in order: those of one SLO by it, pooled ones by the indicator.
pub(crate) fn name_by(pool: bool, measure: &Measure) -> Label {
    if pool { measure.sli } else { measure.slo }
}

/// Where the sums of an objective begin that are likely to be its, by a binary search: `take`
/// leaves them in the order of these names. A search that begins elsewhere finds the same, but
/// later.
pub(crate) fn likely_place(objectives: &[ObjectiveSums], pool: bool, measure: &Measure) -> usize
    ensures { result ≤ length objectives.now }
{
    let name = name_by(pool, measure);
    objectives.partition_point(|kept| name_by(pool, &kept.measure) < name)
}

/// The sums that are kept under the key of an objective, where they are among these. The search
/// begins where they are likely, and goes on over all others.
pub(crate) fn find_by<'a>(
    objectives: &'a [ObjectiveSums],
    pool: bool,
    measure: &Measure,
) -> Option<&'a WindowSums>
    ensures some { IfSome result (λ sums. IsFound pool objectives.now measure.now sums.now) }
    ensures none { result ≡ None → AllByRecursion
        (λ (kept : ObjectiveSums). key_by pool kept.measure ≢ key_by pool measure.now)
        objectives.now }
{
    let place = likely_place(objectives, pool, measure);
    let (before, behind) = objectives.split_at(place);
    match found_in(behind, pool, measure) {
        Some(sums) => Some(sums),
        None => found_in(before, pool, measure),
    }
}

/// The sums of the key of an objective, where they are among these.
fn found_in<'a>(
    objectives: &'a [ObjectiveSums],
    pool: bool,
    measure: &Measure,
) -> Option<&'a WindowSums>
    ensures some { IfSome result (λ sums. IsFound pool objectives.now measure.now sums.now) }
    ensures none { result ≡ None → AllByRecursion
        (λ (kept : ObjectiveSums). key_by pool kept.measure ≢ key_by pool measure.now)
        objectives.now }
{
    for kept in objectives {
        if has_same_key(pool, &kept.measure, measure) {
            return Some(&kept.sums);
        }
    }
    None
}

/// Whether sums are kept under the key of an objective.
pub(crate) fn has_key(objectives: &[ObjectiveSums], pool: bool, measure: &Measure) -> bool
    ensures { Decides result (Contains (keys_by pool objectives.now) (key_by pool measure.now)) }
{
    match find_by(objectives, pool, measure) {
        Some(_) => true,
        None => false,
    }
}
