//! The budgets of an office's SLOs at a minute.
ghost use Rattle.std.specs.Prelude.{◌≡◌, ◌≤◌, ◌<◌, IfOk};
ghost use Rattle.office_history.specs.History.{end_of};
ghost use Rattle.office_report.specs.Report.{AreLines, is_slo as is_slo_def};
ghost use Rattle.office_report.specs.Report.{slo_names as slo_names_def};
ghost use Rattle.office_report.specs.Rows.{AreRows, AreSloLines};

use crate::lines::{counted_lines, unbegun_lines};
use burn_core::State;
use catalog_measures::measures_named;
use catalog_terms::Binding;
use exact_fraction::Label;
use object_terms::Kind;
use office_core::Core;
use record_form::{BudgetRows, Outcome, Query};
use slo_catalog::Catalog;
use std::alloc::{AllocError, Global};

fn is_slo(kind: Kind) -> bool
    ensures { result ≡ is_slo_def kind }
{
    match kind {
        Kind::Slo => true,
        _ => false,
    }
}

/// The names of the SLOs, in the catalog's order.
pub(crate) fn slo_names(alloc: Global, catalog: &Catalog) -> Result<Vec<Label>, AllocError>
    ensures { IfOk result (λ names. names.items ≡ slo_names_def catalog.now) }
{
    let mut names = Vec::new(alloc);
    for member in catalog.members() {
        let object = member.object();
        if is_slo(object.kind) {
            names.push(object.name)?;
        }
    }
    Ok(names)
}

/// The budgets of an SLO's objectives: none where no window of its calendar had begun.
fn rows_of(
    alloc: Global,
    core: &mut Core,
    at: u32,
    name: Label,
) -> Result<Option<BudgetRows>, AllocError>
    requires begun { core.old.office.origin ≤ at }
    requires in_range { at < end_of core.old.office.origin }
    ensures office { core.new.office ≡ core.old.office }
    ensures pending { core.new.pending ≡ core.old.pending }
    ensures rows { IfOk result (AreRows core.old.office at name) }
{
    core.is_legal();
    let moment = core.moment(at);
    let query = Query::Budgets {
        slo: name,
        at: Some(at),
    };
    match core.answer(alloc, moment, &query) {
        Outcome::Budgets { budgets, .. } => Ok(Some(budgets)),
        // Every refusal at a minute of the range is that no window had begun.
        Outcome::Refused(_) => Ok(None),
        Outcome::NoMemory => Err(AllocError),
        _ => unreachable!(),
    }
}

/// The lines of an SLO.
fn slo_lines(
    alloc: Global,
    core: &mut Core,
    at: u32,
    states: &[(Binding, State)],
    name: Label,
) -> Result<Vec<u8>, AllocError>
    requires begun { core.old.office.origin ≤ at }
    requires in_range { at < end_of core.old.office.origin }
    ensures office { core.new.office ≡ core.old.office }
    ensures pending { core.new.pending ≡ core.old.pending }
    ensures lines { IfOk result (λ lines. AreSloLines states.now core.old.office at name
        lines.items) }
{
    match rows_of(alloc, core, at, name)? {
        Some(rows) => counted_lines(alloc, states, name, rows.as_slice()),
        None => {
            let measures = measures_named(alloc, core.catalog(), name)?;
            unbegun_lines(alloc, states, name, &measures)
        }
    }
}

/// The lines of the SLOs of these names.
pub(crate) fn lines_of(
    alloc: Global,
    core: &mut Core,
    at: u32,
    states: &[(Binding, State)],
    names: &[Label],
) -> Result<Vec<u8>, AllocError>
    requires begun { core.old.office.origin ≤ at }
    requires in_range { at < end_of core.old.office.origin }
    ensures office { core.new.office ≡ core.old.office }
    ensures pending { core.new.pending ≡ core.old.pending }
    ensures lines { IfOk result (λ lines. AreLines states.now core.old.office at names.now
        lines.items) }
{
    let mut lines = Vec::new(alloc);
    for name in names {
        let more = slo_lines(alloc, core, at, states, *name)?;
        lines.extend_from_slice(&more)?;
    }
    Ok(lines)
}
