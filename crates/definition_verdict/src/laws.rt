//! The laws of verdicts: a text has one.
ghost use Rattle.std.specs.Prelude.{◌≡◌, ◌⊎◌, ℕ, List};
ghost use Rattle.record_form.specs.declared.Refusal.{Refusal};
ghost use Rattle.office_history.specs.Definitions.{Definition, IsDefinition, IsRefused, Known};

/// A text has one verdict at most over what is kept: what it defines, or why it is refused, which
/// is then the first refusal in the order.
pub fn one_verdict()
    ensures refusal { (known : Known) (text : List ℕ) (a b : Refusal) → IsRefused known text a →
        IsRefused known text b → a ≡ b }
    ensures definition { (known : Known) (text : List ℕ) (a b : Definition) →
        IsDefinition known text a → IsDefinition known text b → a ≡ b }
    ensures either { (known : Known) (text : List ℕ) (made : Definition) (refusal : Refusal) →
        IsDefinition known text made → IsRefused known text refusal → ⊥ }
{}

/// A text has a verdict over what is kept, whatever it is: it defines something or is refused.
pub fn each_text_has_a_verdict()
    ensures { (known : Known) (text : List ℕ) →
        ((made : Definition) × IsDefinition known text made)
        ⊎ ((refusal : Refusal) × IsRefused known text refusal) }
{}
