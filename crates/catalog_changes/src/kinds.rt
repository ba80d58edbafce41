//! The law of kinds and bodies, over texts.
ghost use Rattle.catalog_changes.specs.Kinds.{TextsHaveKinds};

/// The objects of a text have the bodies of their kinds.
pub(crate) fn texts_have_bodies_of_their_kinds()
    ensures { TextsHaveKinds }
{
    yaml_writing::laws::standing_nodes_are_writable();
    object_laws::laws::bodies_are_of_their_kinds();
}
