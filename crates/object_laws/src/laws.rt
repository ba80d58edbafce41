//! Laws of objects.
ghost use Rattle.std.specs.Prelude.{◌≡◌, ◌≤◌, List, [], ◌∷◌, Ok, length, Some};
ghost use Rattle.std.specs.List.{AllByRecursion};
ghost use Rattle.slo_limits.specs.declared.TheConstants.{MAX_TEXT_BYTES};
ghost use Rattle.yaml_terms.specs.Tree.{Tree};
ghost use Rattle.yaml_terms.specs.Profile.{max_depth};
ghost use Rattle.yaml_terms.specs.Text.{StandsFor};
ghost use Rattle.yaml_terms.specs.Spelling.{meant, writing};
ghost use Rattle.yaml_terms.specs.SpellingFits.{SpellingFits, IsWritable};
ghost use Rattle.object_terms.specs.declared.object.Object.{Object};
ghost use Rattle.object_terms.specs.Document.{objects_of, written, IsOfDocument};
ghost use Rattle.object_terms.specs.declared.Slo.{Slo};
ghost use Rattle.object_terms.specs.Slo.{slo_in};
ghost use Rattle.object_laws.specs.Kinds.{kind_of};
ghost use Rattle.object_laws.specs.Ranges.{HasObjectives, IsWindow};

use yaml_writing::laws;

/// What is written is read again: the canonical writing of each object that a document stands for,
/// also of one that stood inline, stands for that object alone.
pub fn each_object_reads_back()
    ensures { (t : Tree) (os : List Object) → objects_of t ≡ Ok os
        → AllByRecursion (λ o. objects_of (meant (written o)) ≡ Ok (o ∷ [])) os }
{}

/// The canonical writing of each object of a document that can be written, as every node of a text
/// can, can be written itself; and its text, where it has at most `MAX_TEXT_BYTES` bytes, stands
/// for the node that it means.
pub fn each_object_can_be_written()
    ensures fits { (t : Tree) (os : List Object) → IsWritable t → objects_of t ≡ Ok os
        → AllByRecursion (λ o. SpellingFits max_depth (written o)) os }
    ensures stands { (t : Tree) (os : List Object) → IsWritable t → objects_of t ≡ Ok os
        → AllByRecursion (λ o. length (writing 0 (written o)) ≤ MAX_TEXT_BYTES
        → StandsFor (writing 0 (written o)) (meant (written o) ∷ [])) os }
{
    laws::written_text_reads_back();
}

/// Objects with one writing are one object: by the nodes that they are written as, and by their
/// texts, whatever their size. So a test on texts tells whether a name is defined twice with
/// different content.
pub fn objects_with_one_text_are_one()
    ensures nodes { (t u : Tree) (os ps : List Object) → objects_of t ≡ Ok os → objects_of u ≡ Ok ps
        → AllByRecursion (λ o. AllByRecursion (λ p. meant (written o) ≡ meant (written p) → o ≡ p)
        ps) os }
    ensures texts { (t u : Tree) (os ps : List Object) → IsWritable t → IsWritable u
        → objects_of t ≡ Ok os → objects_of u ≡ Ok ps
        → AllByRecursion (λ o. AllByRecursion
        (λ p. writing 0 (written o) ≡ writing 0 (written p) → o ≡ p) ps) os }
{
    laws::written_text_reads_back();
}

/// An SLO of a document has one to five objectives, each with what its budgeting method wants of
/// slices, and at most ten policies.
pub fn objectives_are_in_range()
    ensures { (o : Object) (slo : Slo) → IsOfDocument o → slo_in o.body ≡ Some slo
        → HasObjectives slo }
{
    each_object_reads_back();
}

/// The window of an SLO of a document has a calendar where it isn't rolling, and there alone; the
/// calendar's starts can follow each other by the window's length.
pub fn windows_are_in_range()
    ensures { (o : Object) (slo : Slo) → IsOfDocument o → slo_in o.body ≡ Some slo
        → IsWindow slo.time_window }
{
    each_object_reads_back();
}

/// The body of an object of a document is of the object's kind.
pub fn bodies_are_of_their_kinds()
    ensures { (o : Object) → IsOfDocument o → kind_of o.body ≡ o.kind }
{
    each_object_reads_back();
}
