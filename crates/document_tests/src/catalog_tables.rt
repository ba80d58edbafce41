//! What definitions and removals leave in a catalog. Steps stand apart by `~`. A step is a removal
//! behind `- `, else a definition of objects. What they leave is a line for each member and each
//! binding, or the first fault.

use crate::documents::objects_of;
use catalog_terms::{CatalogFault, DefineError, RemoveError};
use exact_fraction::read_label;
use object_terms::Kind;
use slo_catalog::{Catalog, define, remove};
use std::alloc::Global;
use std::process::Abort;

/// A fault as a table names it.
fn fault_text(rt: &impl Abort, alloc: Global, fault: &CatalogFault) -> String {
    match fault {
        CatalogFault::Unresolved {
            from_kind,
            from_name,
            kind,
            name,
        } => format!(in alloc; "{from_kind:?} {from_name} needs {kind:?} {name}\n"),
        _ => format!(in alloc; "{fault:?}\n"),
    }
    .expect(rt, "memory")
}

/// The catalog after a definition, or the fault.
pub(crate) fn after_definition(
    rt: &impl Abort,
    alloc: Global,
    old: &Catalog,
    text: &str,
) -> Result<Catalog, String> {
    let objects = objects_of(rt, alloc, text);
    match define(alloc, old, objects) {
        Ok(catalog) => Ok(catalog),
        Err(DefineError::Fault(fault)) => Err(fault_text(rt, alloc, &fault)),
        Err(DefineError::NoMemory) => Err(String::new(alloc)),
    }
}

/// The catalog without the object of a kind and a name, or the fault.
fn after_removal(
    rt: &impl Abort,
    alloc: Global,
    old: &Catalog,
    named: &str,
) -> Result<Catalog, String> {
    let (kind, name) = named.trim_end().split_once(" ").unwrap_or((named, ""));
    let kind = Kind::of_word(kind.as_bytes()).expect(rt, "a kind");
    let name = read_label(name.as_bytes()).expect(rt, "a name");
    match remove(alloc, old, kind, name) {
        Ok(catalog) => Ok(catalog),
        Err(RemoveError::Fault(fault)) => {
            Err(format!(in alloc; "{fault:?}\n").expect(rt, "memory"))
        }
        Err(RemoveError::NoMemory) => Err(String::new(alloc)),
    }
}

/// The catalog after a step, or the fault.
fn after_step(
    rt: &impl Abort,
    alloc: Global,
    old: &Catalog,
    step: &str,
) -> Result<Catalog, String> {
    match step.strip_prefix("- ") {
        Some(named) => after_removal(rt, alloc, old, named),
        None => after_definition(rt, alloc, old, step),
    }
}

/// Appends a line for each member.
fn show_members(rt: &impl Abort, alloc: Global, out: &mut String, catalog: &Catalog) {
    for member in catalog.members() {
        let (kind, name) = (member.object().kind, member.object().name);
        let line = format!(in alloc; "{kind:?} {name}\n").expect(rt, "memory");
        out.push_str(&line).expect(rt, "memory");
    }
}

/// Appends a line for each binding.
fn show_bindings(rt: &impl Abort, alloc: Global, out: &mut String, catalog: &Catalog) {
    let bindings = catalog.bindings(alloc).expect(rt, "memory");
    for binding in &bindings {
        let (slo, objective, policy) = (binding.slo, binding.objective, binding.policy);
        let line = format!(in alloc; "{slo} {objective} {policy}\n").expect(rt, "memory");
        out.push_str(&line).expect(rt, "memory");
    }
}

/// The members and bindings after steps from an empty catalog on, or the first fault.
pub(crate) fn end_of(rt: &impl Abort, alloc: Global, steps: &str) -> String {
    let mut catalog = Catalog::new(alloc);
    for step in steps.split("~\n") {
        match after_step(rt, alloc, &catalog, step) {
            Ok(next) => catalog = next,
            Err(fault) => return fault,
        }
    }
    let mut out = String::new(alloc);
    show_members(rt, alloc, &mut out, &catalog);
    show_bindings(rt, alloc, &mut out, &catalog);
    out
}
