//! The lines of alerts, each beside what it watches.
ghost use Rattle.std.specs.Prelude.{◌≡◌, ◌≢◌, ◌≤◌, [], IfSome, None, OnOk, Some, slice_get, take};
ghost use Rattle.std.specs.Prelude.{true};
ghost use Rattle.std.specs.Bool.{Decides};
ghost use Rattle.std.specs.List.{AllByRecursion, Contains};
ghost use Rattle.kept_lines.specs.Lines.{bounds_of, watches_of};
ghost use Rattle.kept_lines.specs.declared.kept.WatchLine.{WatchLine};

use crate::same::is_same_watch;
use crate::watch::{Watch, same_binding};
use alert_line::AlertLine;
use catalog_terms::Binding;
use std::alloc::{AllocError, Global};
use std::marker::Model;

/// An alert that is watched, and what is known of its condition.
#[derive(Drop)]
pub struct WatchLine {
    pub watch: Watch,
    pub line: AlertLine,
    /// The binding that was last found to watch it: none until one is, under each catalog.
    pub bound: Option<Binding>,
}

/// The line of each alert that is watched.
#[derive(Drop)]
pub struct KeptLines {
    pub(crate) lines: Vec<WatchLine>,
}

impl Model for KeptLines {
    ghost use Rattle.std.specs.Prelude.{◌-◌, vec_capacity, vec_len};
    ghost use Rattle.kept_lines.specs.Lines.{LinesKept};

    ghost Value = { LinesKept };

    ghost view = { λ a. record {
      kept = a.lines.items;
      spare = vec_capacity a.lines - vec_len a.lines;
    } };
}

/// The place of an alert's line: the first that there is.
pub(crate) fn place_of(lines: &[WatchLine], watch: &Watch) -> Option<usize>
    ensures some { IfSome result (λ place. slice_get (watches_of lines.now) place
        ≡ Some watch.now) }
    ensures first { IfSome result (λ place. AllByRecursion
        (λ (kept : WatchLine). kept.watch ≢ watch.now) (take place lines.now)) }
    ensures none { result ≡ None
        → AllByRecursion (λ (kept : WatchLine). kept.watch ≢ watch.now) lines.now }
{
    for (place, kept) in lines.iter().enumerate() {
        if is_same_watch(&kept.watch, watch) {
            return Some(place);
        }
    }
    None
}

/// Whether the line at a place is an alert's.
pub(crate) fn is_at(lines: &[WatchLine], place: usize, watch: &Watch) -> bool
    ensures { result ≡ true → slice_get (watches_of lines.now) place ≡ Some watch.now }
{
    match lines.get(place) {
        Some(kept) => is_same_watch(&kept.watch, watch),
        None => false,
    }
}

/// Whether a line remembers a binding.
fn is_bound(kept: &WatchLine, binding: &Binding) -> bool
    ensures { result ≡ true → kept.now.bound ≡ Some binding.now }
{
    match &kept.bound {
        Some(bound) => same_binding(bound, binding),
        None => false,
    }
}

/// Whether the line at a place remembers a binding.
pub(crate) fn is_bound_at(lines: &[WatchLine], place: usize, binding: &Binding) -> bool
    ensures { result ≡ true → slice_get (bounds_of lines.now) place ≡ Some (Some binding.now) }
{
    match lines.get(place) {
        Some(kept) => is_bound(kept, binding),
        None => false,
    }
}

/// Whether there is a line of an alert.
pub(crate) fn has_line(lines: &[WatchLine], watch: &Watch) -> bool
    ensures { Decides result (Contains (watches_of lines.now) watch.now) }
{
    place_of(lines, watch).is_some()
}

impl KeptLines {
    /// No lines yet. Takes no memory.
    pub fn new(alloc: Global) -> KeptLines
        ensures { result.kept ≡ [] }
    {
        KeptLines {
            lines: Vec::new(alloc),
        }
    }

    /// Makes room for so many lines more. After an error they are as before.
    ///
    /// # Errors
    ///
    /// Memory ran out.
    pub fn reserve(&mut self, places: usize) -> Result<(), AllocError>
        ensures kept { self.new.kept ≡ self.old.kept }
        ensures spare { OnOk result (places ≤ self.new.spare) }
    {
        self.lines.reserve(places)
    }
}
