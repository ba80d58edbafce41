//! Laws of texts and their faults.

ghost use Rattle.std.specs.Prelude.{◌≡◌, ◌≤◌, ◌+◌, ◌++◌, ℕ, List, Some, ◌⊎◌, length};
ghost use Rattle.std.specs.Str.{IsUtf8};
ghost use Rattle.std.specs.Str.Lines.{lines};
ghost use Rattle.slo_limits.specs.declared.TheConstants.{MAX_TEXT_BYTES};
ghost use Rattle.yaml_terms.specs.Tree.{Tree};
ghost use Rattle.yaml_terms.specs.Text.{StandsFor, nodes_of, without_mark};
ghost use Rattle.yaml_terms.specs.BadPlace.{IsBadPlace};
ghost use Rattle.yaml_terms.specs.Fault.{IsFault};
ghost use Rattle.yaml_terms.specs.declared.ProfileFault.{ProfileFault};

/// Lines stand for nodes or have a fault, and never both. They have one fault alone: the least
/// number of lines that are no text, and one of the table's faults. The first lines of a text are a
/// text.
pub fn lines_are_a_text_or_have_one_fault()
    ensures either { (ls : List (List ℕ)) → ((xs : List Tree) × (nodes_of ls ≡ Some xs))
        ⊎ ((line : ℕ) × (which : ProfileFault) × IsFault ls line which) }
    ensures never_both { (ls : List (List ℕ)) (xs : List Tree) (line : ℕ) (which : ProfileFault)
        → nodes_of ls ≡ Some xs → IsFault ls line which → ⊥ }
    ensures one { (ls : List (List ℕ)) (line other : ℕ) (v w : ProfileFault)
        → IsFault ls line v → IsFault ls other w → (line ≡ other) × (v ≡ w) }
    ensures first { (ls more : List (List ℕ)) (xs : List Tree) → nodes_of (ls ++ more) ≡ Some xs
        → (ys : List Tree) × (nodes_of ls ≡ Some ys) }
{}

/// A text that is small enough and UTF-8 stands for nodes, or one of its lines is at fault.
pub fn a_text_has_nodes_or_a_fault()
    ensures { (text : List ℕ) → length text ≤ MAX_TEXT_BYTES → IsUtf8 (without_mark text)
        → ((xs : List Tree) × StandsFor text xs)
        ⊎ ((line : ℕ) × (which : ProfileFault) × IsFault (lines (without_mark text)) line which) }
{}

/// The line at fault and the number of documents lie within the number of bytes of a text, but for
/// one or two.
pub fn lines_and_documents_are_few()
    ensures lines { (text : List ℕ) (line : ℕ) (which : ProfileFault)
        → IsFault (lines (without_mark text)) line which → line ≤ length text + 1 }
    ensures documents { (text : List ℕ) (xs : List Tree) → StandsFor text xs
        → length xs ≤ length text + 2 }
{}

/// Bytes have one place at most that no UTF-8 text can have: so `YamlFault::NotUtf8` names the only
/// one.
pub fn one_bad_place()
    ensures { (bytes : List ℕ) (a b : ℕ) → IsBadPlace bytes a → IsBadPlace bytes b → a ≡ b }
{}
