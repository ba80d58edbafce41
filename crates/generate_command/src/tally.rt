//! What the requests of a session come to.
ghost use Rattle.std.specs.Prelude.{◌≡◌};
ghost use Rattle.generate_command.specs.Tallies.{budget_told as budget_told_def, is_lack, is_ok};
ghost use Rattle.generate_command.specs.Tallies.{tally_with};

use record_form::{BudgetRow, Outcome};

/// What the requests of a session have come to so far. Its counts stay at the last value of their
/// type.
#[derive(Clone, Copy)]
pub struct SessionTally {
    /// How many requests were asked.
    pub requests: u64,
    /// How many of them came to an answer of status 200.
    pub ok: u64,
    /// The budget of objective 0, as it was told last.
    pub budget: Option<BudgetRow>,
}

/// Whether an outcome is answered with status 200.
fn is_ok(outcome: &Outcome) -> bool
    ensures { result ≡ is_ok outcome.now }
{
    outcome.failure().is_none()
}

/// Whether an outcome came for want of memory, or by a failure of the disk.
pub(crate) fn is_lack(outcome: &Outcome) -> bool
    ensures { result ≡ is_lack outcome.now }
{
    match outcome {
        Outcome::NoMemory | Outcome::DiskFault => true,
        _ => false,
    }
}

/// The budget of objective 0 that was told last, where one was told before.
fn budget_told(outcome: &Outcome, before: Option<BudgetRow>) -> Option<BudgetRow>
    ensures { result ≡ budget_told_def outcome.now before }
{
    match outcome {
        Outcome::Budgets { budgets, .. } => budgets.as_slice().first().copied(),
        _ => before,
    }
}

impl SessionTally {
    ghost use Rattle.generate_command.specs.Tallies.{no_tally, tally_with};

    /// No request was asked.
    pub(crate) fn new() -> SessionTally
        ensures { result ≡ no_tally }
    {
        SessionTally {
            requests: 0,
            ok: 0,
            budget: None,
        }
    }

    /// One more request came to this outcome.
    pub(crate) fn note(&mut self, outcome: &Outcome)
        ensures { self.new ≡ tally_with outcome.now self.old }
    {
        self.requests = self.requests.saturating_add(1);
        if is_ok(outcome) {
            self.ok = self.ok.saturating_add(1);
        }
        self.budget = budget_told(outcome, self.budget);
    }
}
