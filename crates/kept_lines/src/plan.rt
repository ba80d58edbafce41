//! What becomes of the lines as a catalog takes the place of another.
ghost use Rattle.std.specs.Prelude.{◌≡◌, ◌++◌, List, All, IfOk, OnOk};
ghost use Rattle.std.specs.List.{AllByRecursion};
ghost use Rattle.object_terms.specs.declared.Object.{Object};
ghost use Rattle.office_history.specs.Alerts.{Watch};
ghost use Rattle.kept_lines.specs.Lines.{AreWatched};
ghost use Rattle.kept_lines.specs.Plans.{HasLine, IsFresh, IsLinesPlan, watches_at, watches_in};

use crate::kept::{KeptLines, WatchLine, has_line};
use crate::watch::{Watch, watch_of};
use alert_line::AlertLine;
use catalog_terms::Binding;
use slo_catalog::Catalog;
use std::alloc::{AllocError, Global};

/// The alerts whose lines are to be kept, and the lines of those that had none.
#[derive(Drop)]
pub struct LinesPlan {
    /// The alerts that the catalog that comes watches.
    pub wanted: Vec<Watch>,
    /// The lines of those among them that the catalog before hadn't.
    pub made: Vec<WatchLine>,
}

/// Adds what a binding watches.
fn add_watch(
    catalog: &Catalog,
    binding: &Binding,
    wanted: &mut Vec<Watch>,
) -> Result<(), AllocError>
    ensures { OnOk result (wanted.new.items
        ≡ wanted.old.items ++ watches_at catalog.now binding.now) }
{
    if let Some(watch) = watch_of(catalog, binding) {
        wanted.push(watch)?;
    }
    Ok(())
}

/// What the bindings of a catalog watch.
fn wanted_of(alloc: Global, catalog: &Catalog) -> Result<Vec<Watch>, AllocError>
    ensures { IfOk result (λ wanted. wanted.items ≡ watches_in catalog.now) }
{
    let bindings = catalog.bindings(alloc)?;
    let mut wanted = Vec::new(alloc);
    for binding in &bindings {
        add_watch(catalog, binding, &mut wanted)?;
    }
    Ok(wanted)
}

/// Makes a line of an alert, unless it has one.
fn add_line(
    alloc: Global,
    lines: &KeptLines,
    origin: u32,
    watch: &Watch,
    made: &mut Vec<WatchLine>,
) -> Result<(), AllocError>
    requires fresh { AllByRecursion (IsFresh origin) made.old.items }
    ensures fresh { OnOk result (AllByRecursion (IsFresh origin) made.new.items) }
    ensures there { OnOk result (HasLine lines.now.kept made.new.items watch.now) }
    ensures still { OnOk result ((w : Watch) → HasLine lines.now.kept made.old.items w
        → HasLine lines.now.kept made.new.items w) }
{
    if has_line(&lines.lines, watch) || has_line(made, watch) {
        return Ok(());
    }
    let line = AlertLine::new(alloc, origin, *watch.rule(), watch.measure().target)?;
    made.push(WatchLine {
        watch: *watch,
        line,
        bound: None,
    })?;
    Ok(())
}

/// The lines of those of these alerts that have none yet.
fn lines_made(
    alloc: Global,
    lines: &KeptLines,
    origin: u32,
    wanted: &[Watch],
) -> Result<Vec<WatchLine>, AllocError>
    ensures fresh { IfOk result (λ made. AllByRecursion (IsFresh origin) made.items) }
    ensures there { IfOk result (λ made. All (HasLine lines.now.kept made.items) wanted.now) }
{
    let mut made = Vec::new(alloc);
    for watch in wanted {
        add_line(alloc, lines, origin, watch, &mut made)?;
    }
    Ok(made)
}

/// What becomes of the lines as a catalog takes the place of another: the alerts that it watches,
/// and the lines of those that had none. These know nothing yet, and take room of 512 KiB each, of
/// which only what they know is written.
///
/// # Errors
///
/// Memory ran out.
pub fn plan_lines(
    alloc: Global,
    lines: &KeptLines,
    catalog: &Catalog,
    origin: u32,
) -> Result<LinesPlan, AllocError>
    ensures { (before : List Object) → AreWatched before lines.now.kept
        → IfOk result (IsLinesPlan origin before catalog.now) }
{
    let wanted = wanted_of(alloc, catalog)?;
    let made = lines_made(alloc, lines, origin, &wanted)?;
    Ok(LinesPlan { wanted, made })
}
