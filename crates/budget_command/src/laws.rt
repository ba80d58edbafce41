//! The law of `budget`: an input has one answer.
ghost use Rattle.std.specs.Prelude.{◌≡◌, List, ℕ, Result};
ghost use Rattle.budget_command.specs.Answer.{IsBudgetAnswer};
ghost use Rattle.budget_command.specs.declared.fault.BudgetFault.{BudgetFault};
ghost use Rattle.budget_command.specs.declared.order.BudgetOrder.{BudgetOrder};

/// Each input has an answer of `budget`, and no second one: its lines, or why it is refused. So
/// `run` refuses an input exactly where the definition does, and prints exactly the definition's
/// lines.
pub fn one_budget_answer()
    ensures some { (order : BudgetOrder) (bytes : List ℕ) →
        (answer : Result (List ℕ) BudgetFault) × IsBudgetAnswer order bytes answer }
    ensures only { (order : BudgetOrder) (bytes : List ℕ) (a b : Result (List ℕ) BudgetFault) →
        IsBudgetAnswer order bytes a → IsBudgetAnswer order bytes b → a ≡ b }
{}
