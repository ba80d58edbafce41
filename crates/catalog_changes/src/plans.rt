//! Room for the sums that come with another catalog.
ghost use Rattle.std.specs.Prelude.{ℕ, List, OnOk};
ghost use Rattle.object_terms.specs.declared.Kind.{Kind};
ghost use Rattle.object_terms.specs.declared.Object.{Object};
ghost use Rattle.office_derived.specs.Derived.{HasRoom, Stays};
ghost use Rattle.office_derived.specs.declared.Work.TheVariants as works;

use kept_sums::SumsPlan;
use office_derived::Derived;
use std::alloc::AllocError;

/// Makes room for the sums of a plan, all of which are kept or come with it. After an error all is
/// as before.
///
/// # Errors
///
/// Memory ran out.
pub fn room_for_plan(derived: &mut Derived, plan: &SumsPlan) -> Result<(), AllocError>
    ensures define { (text : List ℕ) (catalog : List Object) (applied : ℕ) →
        OnOk result (HasRoom derived.new (works.Define text catalog applied plan.now)) }
    ensures remove { (kind : Kind) (name : List ℕ) (catalog : List Object) →
        OnOk result (HasRoom derived.new (works.Remove kind name catalog plan.now)) }
    ensures stays { Stays derived.old derived.new }
{
    derived.sums.make_ready(plan)
}
