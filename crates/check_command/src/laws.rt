//! The law of `check`: a text has one answer.
ghost use Rattle.std.specs.Prelude.{◌≡◌, List, ℕ, Result};
ghost use Rattle.record_form.specs.declared.Refusal.{Refusal};
ghost use Rattle.check_command.specs.Answer.{IsCheckAnswer};

use definition_verdict::laws;

/// A text has exactly one answer of `check`: the number of its documents and objects, or the first
/// refusal.
pub fn one_check_answer()
    ensures one { (bytes : List ℕ) (a b : Result (List ℕ) Refusal) → IsCheckAnswer bytes a →
        IsCheckAnswer bytes b → a ≡ b }
    ensures some { (bytes : List ℕ) → (answer : Result (List ℕ) Refusal)
        × IsCheckAnswer bytes answer }
{
    laws::each_text_has_a_verdict();
}
