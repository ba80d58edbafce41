//! Laws of nodes and their writings.

ghost use Rattle.std.specs.Prelude.{◌≡◌, ◌≤◌, ℕ, false, List, [], ◌∷◌, length};
ghost use Rattle.std.specs.List.{AllByRecursion};
ghost use Rattle.slo_limits.specs.declared.TheConstants.{MAX_TEXT_BYTES};
ghost use Rattle.yaml_terms.specs.Tree.{Tree};
ghost use Rattle.yaml_terms.specs.Profile.{max_depth};
ghost use Rattle.yaml_terms.specs.Text.{StandsFor};
ghost use Rattle.yaml_terms.specs.Spelling.{Spelling, meant, writing, is_word};
ghost use Rattle.yaml_terms.specs.SpellingFits.{SpellingFits, IsWritable};
ghost use Rattle.yaml_terms.specs.Standing.{IsIn, StandsIn};

/// Every node that stands in a text, at any depth, can be written. So its texts are UTF-8, its
/// plain scalars are of the plain form, its other texts have no control characters but tabs and
/// line feeds, none of its maps has a key twice, and its maps and lists nest at most 32 deep.
pub fn standing_nodes_are_writable()
    ensures documents { (text : List ℕ) (xs : List Tree) → StandsFor text xs
        → AllByRecursion IsWritable xs }
    ensures inside { (x y : Tree) → IsIn x y → IsWritable y → IsWritable x }
    ensures at_any_depth { (text : List ℕ) (x : Tree) → StandsIn text x → IsWritable x }
{}

/// What is written reads back: the text of a value that can be written stands for its node, where
/// it isn't a plain scalar alone and has at most `MAX_TEXT_BYTES` bytes. A text stands for one list
/// of nodes at most; and values with one text are one node, whatever its size.
pub fn written_text_reads_back()
    ensures stands { (s : Spelling) → SpellingFits max_depth s → is_word s ≡ false
        → length (writing 0 s) ≤ MAX_TEXT_BYTES → StandsFor (writing 0 s) (meant s ∷ []) }
    ensures alone { (text : List ℕ) (xs ys : List Tree) → StandsFor text xs → StandsFor text ys
        → xs ≡ ys }
    ensures told_apart { (s t : Spelling) → SpellingFits max_depth s → SpellingFits max_depth t
        → is_word s ≡ false
        → is_word t ≡ false → writing 0 s ≡ writing 0 t → meant s ≡ meant t }
{}
