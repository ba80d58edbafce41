//! Sums of an SLO, given up where pooled ones are its sums again.
ghost use Rattle.std.specs.Prelude.{◌≡◌, ◌⊎◌, Bool, List, false};
ghost use Rattle.std.specs.List.{AllByRecursion, Contains};
ghost use Rattle.sample_book.specs.declared.Exclusion.{Exclusion};
ghost use Rattle.sample_book.specs.declared.Row.{Row};
ghost use Rattle.object_terms.specs.declared.Object.{Object};
ghost use Rattle.office_history.specs.declared.Measure.{Measure};
ghost use Rattle.kept_sums.specs.Objectives.{AreKept, HasSums, IsLike, IsPooledFor, counted};
ghost use Rattle.kept_sums.specs.Objectives.{keys_by};
ghost use Rattle.kept_sums.specs.declared.kept.ObjectiveSums.{ObjectiveSums};

use crate::kept::{KeptSums, ObjectiveSums, has_key};
use exact_fraction::Label;
use office_history::Measure;
use sample_book::SampleBook;

/// Whether an objective is one of another SLO, or none for which pooled sums are kept.
fn has_no_other(pooled: &[ObjectiveSums], slo: Label, measure: &Measure) -> bool
    ensures { result ≡ false → IsPooledFor pooled.now slo measure.now }
{
    if measure.slo != slo {
        return true;
    }
    let shared = has_key(pooled, true, measure);
    !shared
}

/// Gives up those sums of an SLO for whose objectives pooled ones are kept.
fn give_up(own: &mut Vec<ObjectiveSums>, pooled: &[ObjectiveSums], slo: Label)
    ensures sums { (made : List (Exclusion × Bool)) (rows : List Row)
        → AreKept made rows own.old.items → AreKept made rows own.new.items }
    ensures only { (members : List Object)
        → AllByRecursion (λ (k : ObjectiveSums). IsLike members false k.measure) own.old.items
        → AllByRecursion (λ (k : ObjectiveSums). IsLike members false k.measure) own.new.items }
    ensures there { (m : Measure) → Contains (keys_by false own.old.items) (counted m)
        → Contains (keys_by false own.new.items) (counted m) ⊎ IsPooledFor pooled.now slo m }
{
    own.retain(
        |kept: &ObjectiveSums| -> bool
            ensures { result ≡ false → IsPooledFor pooled.entry.now slo kept.now.measure }
        { has_no_other(pooled, slo, &kept.measure) },
    );
}

impl KeptSums {
    /// Gives up the sums of an SLO for which no exclusion is live any more, where pooled ones are
    /// kept: those are its sums then. All others stay. No memory is taken.
    pub fn pool_again(&mut self, book: &SampleBook, slo: Label)
        ensures own { (made : List (Exclusion × Bool)) (rows : List Row)
            → AreKept made rows self.old.own → AreKept made rows self.new.own }
        ensures own_only { (members : List Object)
            → AllByRecursion (λ (k : ObjectiveSums). IsLike members false k.measure) self.old.own
            → AllByRecursion (λ (k : ObjectiveSums). IsLike members false k.measure) self.new.own }
        ensures pooled { self.new.pooled ≡ self.old.pooled }
        ensures all { (m : Measure) → HasSums book.now.exclusions self.old.own self.old.pooled m
            → HasSums book.now.exclusions self.new.own self.new.pooled m }
    {
        let excluded = book.has_exclusions(slo);
        if excluded {
            return;
        }
        give_up(&mut self.own, &self.pooled, slo);
    }
}
