//! Windows that a walk over bindings carries from one line to the next.
ghost use Rattle.std.specs.Prelude.{◌≡◌, ℕ, IfSome, true};
ghost use Rattle.window_sums.specs.Slices.{width_of};
ghost use Rattle.alert_line.specs.Summed.{AreSummedAt};
ghost use Rattle.office_history.specs.Counts.{Samples, leaf_at};
ghost use Rattle.office_history.specs.declared.Measure.{Measure};
ghost use Rattle.kept_sums.specs.Objectives.{HasNoExclusions};
ghost use Rattle.kept_lines.specs.Carried.{AreCarried, HaveSameLeaves};
ghost use Rattle.kept_lines.specs.Sums.{samples_of};

use alert_line::SummedWindows;
use exact_fraction::Label;
use kept_sums::has_same_key;
use office_history::Measure;
use sample_book::SampleBook;

/// Windows that were summed up, and an objective that counts what they are over.
#[derive(Clone, Copy)]
pub(crate) struct CarriedWindows {
    pub(crate) measure: Option<Measure>,
    pub(crate) windows: SummedWindows,
}

/// Whether no minute is excluded for two SLOs.
fn are_whole(book: &SampleBook, a: Label, b: Label) -> bool
    ensures { result ≡ true → HasNoExclusions book.now.exclusions a
        × HasNoExclusions book.now.exclusions b }
{
    if book.has_exclusions(a) {
        return false;
    }
    !book.has_exclusions(b)
}

/// Whether two objectives count the same: their targets alone differ, or their SLOs too, for which
/// no minute is excluded.
fn counts_the_same(book: &SampleBook, a: &Measure, b: &Measure) -> bool
    ensures { result ≡ true → HaveSameLeaves (samples_of book.now) a.now b.now }
{
    let counted = has_same_key(false, a, b);
    if counted {
        return true;
    }
    let pooled = has_same_key(true, a, b);
    if pooled {
        return are_whole(book, a.slo, b.slo);
    }
    false
}

impl CarriedWindows {
    /// No windows yet.
    pub(crate) fn new() -> CarriedWindows
        ensures { (s : Samples) (minute : ℕ) → AreCarried s minute result }
    {
        CarriedWindows {
            measure: None,
            windows: SummedWindows::new(),
        }
    }

    /// Whether the windows are over what an objective counts.
    fn are_for(&self, book: &SampleBook, measure: &Measure) -> bool
        ensures same { result ≡ true → IfSome self.now.measure
            (λ (m : Measure). HaveSameLeaves (samples_of book.now) m measure.now) }
        ensures windows { result ≡ true → (minute : ℕ)
            → AreCarried (samples_of book.now) minute self.now
            → AreSummedAt (width_of measure.now.method) (leaf_at (samples_of book.now) measure.now)
            minute self.now.windows }
    {
        match &self.measure {
            Some(own) => counts_the_same(book, own, measure),
            None => false,
        }
    }

    /// Lets the windows go unless they are over what an objective counts, whose line comes next.
    pub(crate) fn go_on_to(&mut self, book: &SampleBook, measure: &Measure)
        ensures same { IfSome self.new.measure
            (λ (m : Measure). HaveSameLeaves (samples_of book.now) m measure.now) }
        ensures windows { (minute : ℕ) → AreCarried (samples_of book.now) minute self.old
            → AreSummedAt (width_of measure.now.method) (leaf_at (samples_of book.now) measure.now)
            minute self.new.windows }
    {
        if !self.are_for(book, measure) {
            self.measure = Some(*measure);
            self.windows = SummedWindows::new();
        }
    }
}
