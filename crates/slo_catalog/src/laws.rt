//! Laws of catalogs.
ghost use Rattle.std.specs.Prelude.{◌≡◌, ℕ, List, [], ◌∷◌, ◌++◌, map, not, find, flat_map, None};
ghost use Rattle.std.specs.Prelude.{true};
ghost use Rattle.object_terms.specs.declared.kind.Kind.{Kind};
ghost use Rattle.object_terms.specs.declared.object.Object.{Object};
ghost use Rattle.catalog_terms.specs.Catalog.{Change, Defined, Removed, IsCatalog, with_members};
ghost use Rattle.catalog_terms.specs.Catalog.{without};
ghost use Rattle.catalog_terms.specs.Define.{first_duplicate, first_differing, is_unchanged};
ghost use Rattle.catalog_terms.specs.References.{references as references_def};
ghost use Rattle.catalog_terms.specs.References.{is_resolved as is_resolved_def};
ghost use Rattle.catalog_terms.specs.References.{first_unresolved as first_unresolved_def, IsLegal};
ghost use Rattle.std.specs.List.{All};
ghost use Rattle.object_terms.specs.Document.{IsOfDocument};
ghost use Rattle.catalog_terms.specs.Keys.{IsSorted};

use object_laws::laws;

/// A history has one catalog.
pub fn a_history_has_one_catalog()
    ensures { (changes : List Change) (os ps : List Object) → IsCatalog changes os
        → IsCatalog changes ps → os ≡ ps }
{}

/// The catalog of no changes is empty. Definitions put their objects in their places, where each
/// replaces the one of its kind and name, and a removal takes the object of its kind and name out.
pub fn a_catalog_follows_its_history()
    ensures empty { IsCatalog [] [] }
    ensures defined { (changes : List Change) (os objects : List Object) → IsCatalog changes os
        → IsCatalog (changes ++ map Defined objects) (with_members objects os) }
    ensures removed { (changes : List Change) (os : List Object) (kind : Kind) (name : List ℕ)
        → IsCatalog changes os → IsCatalog (changes ++ Removed kind name ∷ [])
        (without kind name os) }
{}

/// The first copy that is named as a duplicate is the first object that differs from an earlier one
/// of its kind and name.
pub fn the_first_copy_that_differs_is_named()
    ensures { (objects : List Object) → first_duplicate objects ≡ first_differing [] objects }
{}

/// The reference that is named as unresolved is the first such one of all that the objects have, in
/// the order of the objects and of their fields; and a list of objects is legal exactly where none
/// of theirs is named.
pub fn the_first_reference_to_nothing_is_named()
    ensures first { (members objects : List Object)
        → first_unresolved_def members objects
        ≡ find (λ r. not (is_resolved_def members r)) (flat_map references_def objects) }
    ensures none { (members : List Object) → IsLegal members
        → first_unresolved_def members members ≡ None }
    ensures legal { (members : List Object) → first_unresolved_def members members ≡ None
        → IsLegal members }
{}

/// Where each object is written as the member of its kind and name, a definition of them leaves the
/// members as they are.
pub fn an_unchanged_definition_leaves_the_members()
    ensures { (old objects : List Object) → IsSorted old → All IsOfDocument old
        → All IsOfDocument objects → is_unchanged old objects ≡ true
        → with_members objects old ≡ old }
{
    laws::objects_with_one_text_are_one();
}
