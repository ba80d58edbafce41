//! What lines forget before rows or an exclusion are followed.
ghost use Rattle.std.specs.Prelude.{◌≡◌, ◌≤◌, ℕ, Bool, IfSome, not};
ghost use Rattle.std.specs.List.{AllByRecursion};
ghost use Rattle.sample_book.specs.declared.Row.{Row};
ghost use Rattle.sample_book.specs.Puts.{verdicts as verdicts_def};
ghost use Rattle.window_sums.specs.Slices.{width_of as width_of_def};
ghost use Rattle.kept_sums.specs.Sums.{RowFits, SumsAreKept};
ghost use Rattle.line_forgetting.specs.Moves.{IsToldOf};
ghost use Rattle.line_forgetting.specs.Right.{IsRight};
ghost use Rattle.line_forgetting.specs.Touched.{Forgets, LAST_MINUTE};
ghost use Rattle.office_derived.specs.Derived.{IsPlaced, IsSound};
ghost use Rattle.kept_lines.specs.Changes.{AllForget, IsChangedBy, IsMovedBy, samples_on};
ghost use Rattle.kept_lines.specs.Changes.{samples_with};
ghost use Rattle.kept_lines.specs.Lines.{HasLines, KeepsLines};
ghost use Rattle.kept_lines.specs.Sums.{samples_of};

use crate::kept::KeptLines;
use crate::sums::objective_sums;
use crate::watch::Watch;
use alert_line::AlertLine;
use line_forgetting::{IndicatorMoves, earliest_minute, forget_near_batch};
use office_derived::Derived;
use sample_book::{Exclusion, Row, RowVerdict, SampleBook};
use window_sums::{WindowSums, width_of};

/// A line forgets what is near the slices of the rows of a batch that move. So it is right with
/// the batch as it was without it. No row is before the earliest minute. Gives what is told then of
/// the rows of an indicator.
fn forget_moved(
    line: &mut AlertLine,
    watch: &Watch,
    earliest: u32,
    told: Option<IndicatorMoves>,
    book: &SampleBook,
    rows: &[Row],
    verdicts: &[RowVerdict],
) -> Option<IndicatorMoves>
    requires rule { line.old.rule ≡ watch.now.rule }
    requires verdicts { verdicts.now ≡ verdicts_def book.now.rows rows.now }
    requires earliest { AllByRecursion (λ (row : Row). earliest ≤ row.minute) rows.now }
    requires told { IfSome told (IsToldOf rows.now verdicts.now) }
    requires early { AllByRecursion (λ (row : Row). row.minute ≤ LAST_MINUTE) rows.now }
    ensures forgets { Forgets (IsMovedBy rows.now verdicts.now watch.now)
        (width_of_def watch.now.measure.method) line.old line.new }
    ensures right { (begin : ℕ) → IsRight begin (samples_of book.now) watch.now line.old
        → IsRight begin (samples_with book.now rows.now) watch.now line.new }
    ensures told { IfSome result (IsToldOf rows.now verdicts.now) }
{
    let measure = watch.measure();
    let width = width_of(&measure.method);
    book.rows_are_current();
    let rule = watch.rule();
    forget_near_batch(
        line, rule, measure, width, earliest, told, book, rows, verdicts,
    )
}

/// A line forgets what is near the slices of the rows that count otherwise with an exclusion than
/// without it. So it is right with the exclusion (`taken`) as it was without it, or the other way
/// round. The sums of its objective are those without it, and tell which slices have counts.
fn forget_changed(
    line: &mut AlertLine,
    watch: &Watch,
    book: &SampleBook,
    sums: &WindowSums,
    value: &Exclusion,
)
    requires rule { line.old.rule ≡ watch.now.rule }
    requires early { AllByRecursion (λ (row : Row). row.minute ≤ LAST_MINUTE) book.now.rows }
    requires forms { AllByRecursion (RowFits watch.now.measure) book.now.rows }
    requires kept { SumsAreKept watch.now.measure book.now.exclusions book.now.rows sums.now }
    ensures forgets { Forgets (IsChangedBy book.now value.now watch.now)
        (width_of_def watch.now.measure.method) line.old line.new }
    ensures right { (begin : ℕ) (taken : Bool)
        → IsRight begin (samples_on book.now value.now (not taken)) watch.now line.old
        → IsRight begin (samples_on book.now value.now taken) watch.now line.new }
{
    let measure = watch.measure();
    let width = width_of(&measure.method);
    line_forgetting::forget_near_exclusion(line, watch.rule(), measure, width, book, sums, value);
}

impl KeptLines {
    /// The lines forget what a batch of rows may change, each of which becomes this over those
    /// before it. What is kept doesn't have them yet. No memory is taken.
    pub fn forget_rows(&mut self, derived: &Derived, rows: &[Row], verdicts: &[RowVerdict])
        requires sound { IsSound derived.now }
        requires lines { HasLines derived.now self.old.kept }
        requires verdicts { verdicts.now ≡ verdicts_def derived.now.book.rows rows.now }
        requires placed { AllByRecursion (IsPlaced derived.now.origin) rows.now }
        ensures lines { KeepsLines derived.now.origin derived.now.catalog
            (samples_with derived.now.book rows.now) self.new.kept }
        ensures forget { AllForget (IsMovedBy rows.now verdicts.now) self.old.kept self.new.kept }
        ensures spare { self.new.spare ≡ self.old.spare }
    {
        let earliest = earliest_minute(rows);
        let mut told = None;
        for kept in self.lines.iter_mut() {
            told = forget_moved(
                &mut kept.line,
                &kept.watch,
                earliest,
                told,
                &derived.book,
                rows,
                verdicts,
            );
        }
    }

    /// The lines forget what an exclusion may change that is made (`taken`), or one that is lifted.
    /// What is kept doesn't have it, neither the book nor the sums. No memory is taken.
    pub fn forget_exclusion(&mut self, derived: &Derived, value: &Exclusion, taken: bool)
        requires sound { IsSound derived.now }
        requires lines { KeepsLines derived.now.origin derived.now.catalog
            (samples_on derived.now.book value.now (not taken)) self.old.kept }
        ensures lines { KeepsLines derived.now.origin derived.now.catalog
            (samples_on derived.now.book value.now taken) self.new.kept }
        ensures forget { AllForget (IsChangedBy derived.now.book value.now) self.old.kept
            self.new.kept }
        ensures spare { self.new.spare ≡ self.old.spare }
    {
        for kept in self.lines.iter_mut() {
            let sums = objective_sums(derived, kept.watch.measure());
            forget_changed(&mut kept.line, &kept.watch, &derived.book, sums, value);
        }
    }
}
