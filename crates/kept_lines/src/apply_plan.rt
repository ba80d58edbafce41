//! The lines that a plan wants, kept, and those that it brings, taken.
ghost use Rattle.std.specs.Prelude.{◌≡◌, ◌≤◌, ℕ, List, None, length};
ghost use Rattle.std.specs.Bool.{Decides};
ghost use Rattle.std.specs.List.{AllByRecursion, Contains};
ghost use Rattle.alert_line.specs.Line.{Line};
ghost use Rattle.object_terms.specs.declared.Object.{Object};
ghost use Rattle.office_history.specs.Alerts.{Watch};
ghost use Rattle.office_history.specs.Counts.{Samples};
ghost use Rattle.kept_lines.specs.Known.{IsLineOf};
ghost use Rattle.kept_lines.specs.Lines.{KeepsLines, lines_of, watches_of};
ghost use Rattle.kept_lines.specs.Plans.{IsLinesPlan};
ghost use Rattle.kept_lines.specs.declared.kept.WatchLine.{WatchLine};

use crate::kept::KeptLines;
use crate::plan::LinesPlan;
use crate::same::is_same_watch;
use crate::watch::Watch;

fn is_among(watches: &[Watch], watch: &Watch) -> bool
    ensures { Decides result (Contains watches.now watch.now) }
{
    for other in watches {
        if is_same_watch(other, watch) {
            return true;
        }
    }
    false
}

impl KeptLines {
    /// Keeps the lines that a plan wants of those that were there and of those that it brings, as a
    /// catalog takes the place of another. There is room for these, and no memory is taken. A line
    /// that stays is as it was.
    pub fn take(&mut self, plan: LinesPlan)
        requires room { length plan.made.items ≤ self.old.spare }
        ensures lines { (begin : ℕ) (before after : List Object) (s : Samples)
            → KeepsLines begin before s self.old.kept → IsLinesPlan begin before after plan
            → KeepsLines begin after s self.new.kept }
        ensures stay { (w : Watch) (before after : Line) → IsLineOf self.old.kept w before
            → IsLineOf self.new.kept w after → after ≡ before }
    {
        let LinesPlan { wanted, mut made } = plan;
        self.lines.append(&mut made).unwrap();
        self.lines.retain(|kept| is_among(&wanted, &kept.watch));
        self.forget_bindings();
    }

    /// The lines remember no binding any more: under another catalog it may watch something else.
    fn forget_bindings(&mut self)
        ensures bound { AllByRecursion (λ (k : WatchLine). k.bound ≡ None) self.new.kept }
        ensures watches { watches_of self.new.kept ≡ watches_of self.old.kept }
        ensures lines { lines_of self.new.kept ≡ lines_of self.old.kept }
    {
        for kept in self.lines.iter_mut() {
            kept.bound = None;
        }
    }
}
