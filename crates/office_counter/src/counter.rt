//! Who answers requests.
ghost use Rattle.std.specs.Prelude.{◌≡◌, ◌≤◌, ℕ};
ghost use Rattle.slo_limits.specs.declared.TheConstants.{MAX_MINUTE};
ghost use Rattle.record_form.specs.declared.Outcome.{Outcome};
ghost use Rattle.record_form.specs.declared.Request.{Request};
ghost use Rattle.office_counter.specs.Steps.{HasRevisionsIn, Standing, Step};

use record_form::{Outcome, Request};
use std::alloc::Global;

/// Answers requests over an office's history, which it owns or shares.
pub trait Counter {
    /// What one asking may do: of the counter before, the clock's reading, the request, the
    /// outcome, and the counter after. Each asking is a step.
    ghost asks: { Self → ℕ → Request → Outcome → Self → Type 0 };

    /// What the counter knows of the office.
    ghost standing: { Self → Standing };

    /// Asks one request that was read at this reading of the clock, in minutes since
    /// 1970-01-01T00:00Z.
    fn ask(&mut self, alloc: Global, reading: u32, request: &Request) -> Outcome
        requires reading { reading ≤ MAX_MINUTE }
        requires revisions { HasRevisionsIn request.now }
        ensures { asks self.old reading request.now result self.new };

    /// Each asking is a step.
    ghost steps: { (old : Self) (reading : ℕ) (request : Request) (outcome : Outcome) (new : Self)
        → asks old reading request outcome new
        → Step (standing old) reading request outcome (standing new) };
}
