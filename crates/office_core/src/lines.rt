//! The lines of alerts, as a command is made ready and done.
ghost use Rattle.std.specs.Prelude.{◌≡◌, ◌≤◌, length, IfOk, IfSome};
ghost use Rattle.office_history.specs.History.{Office, with_entry};
ghost use Rattle.office_history.specs.Outcomes.{outcome_of};
ghost use Rattle.record_form.specs.declared.Command.TheVariants.{Lift};
ghost use Rattle.office_derived.specs.declared.Work.TheVariants as works;
ghost use Rattle.office_derived.specs.Derived.{IsNext, IsSound, Reflects, entry_of};
ghost use Rattle.kept_lines.specs.Lines.{HasLines};
ghost use Rattle.kept_lines.specs.Plans.{IsLinesPlan};
ghost use Rattle.office_core.specs.Forgetting.{ForgetsOnlyNear};
ghost use Rattle.office_core.specs.Machine.{HasLinesPlan};

use exact_fraction::Label;
use kept_lines::{KeptLines, LinesPlan, plan_lines};
use office_derived::{Derived, Work};
use record_form::Outcome;
use sample_changes::apply_lift;
use slo_catalog::Catalog;
use std::alloc::{AllocError, Global};

/// The lines of a catalog that comes, and room for those that are new.
fn lines_for(
    alloc: Global,
    derived: &Derived,
    lines: &mut KeptLines,
    catalog: &Catalog,
) -> Result<LinesPlan, AllocError>
    requires lines { HasLines derived.now lines.old.kept }
    ensures plan { IfOk result (IsLinesPlan derived.now.origin derived.now.catalog catalog.now) }
    ensures room { IfOk result (λ plan. length plan.made.items ≤ lines.new.spare) }
    ensures kept { lines.new.kept ≡ lines.old.kept }
{
    let plan = plan_lines(alloc, lines, catalog, derived.origin)?;
    lines.reserve(plan.made.len())?;
    Ok(plan)
}

/// What a definition or a removal makes of the lines; none for other commands.
pub(crate) fn plan_of(
    alloc: Global,
    derived: &Derived,
    lines: &mut KeptLines,
    work: &Work,
) -> Result<Option<LinesPlan>, AllocError>
    requires lines { HasLines derived.now lines.old.kept }
    ensures plan { IfOk result (HasLinesPlan derived.now lines.new work.now) }
    ensures kept { lines.new.kept ≡ lines.old.kept }
{
    match work {
        Work::Define { catalog, .. } => Ok(Some(lines_for(alloc, derived, lines, catalog)?)),
        Work::Remove { catalog, .. } => Ok(Some(lines_for(alloc, derived, lines, catalog)?)),
        _ => Ok(None),
    }
}

/// Lifts an exclusion, and lets the lines forget what counts again.
pub(crate) fn lift(derived: &mut Derived, lines: &mut KeptLines, moment: u32, id: Label) -> Outcome
    requires sound { IsSound derived.old }
    requires next { (o : Office) × IsNext derived.old o moment (works.Lift id) }
    requires lines { HasLines derived.old lines.old.kept }
    ensures reflects { (o : Office) → IsNext derived.old o moment (works.Lift id)
        → Reflects derived.new (with_entry o (entry_of moment (works.Lift id))) }
    ensures sound { IsSound derived.new }
    ensures outcome { (o : Office) → IsNext derived.old o moment (works.Lift id)
        → result ≡ outcome_of o moment (Lift id) }
    ensures lines { HasLines derived.new lines.new.kept }
    ensures forgets { (o : Office) → IsNext derived.old o moment (works.Lift id)
        → ForgetsOnlyNear o (entry_of moment (works.Lift id)) lines.old.kept lines.new.kept }
{
    let lifted = derived.book.exclusion(id);
    let outcome = apply_lift(derived, moment, id);
    if let Some((value, _)) = lifted {
        lines.forget_exclusion(derived, &value, false);
    }
    outcome
}
