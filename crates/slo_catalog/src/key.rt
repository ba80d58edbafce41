//! Keys: a kind and a name.
ghost use Rattle.std.specs.Prelude.{◌≡◌};
ghost use Rattle.catalog_terms.specs.Keys.{is_key};

use exact_fraction::Label;
use object_terms::{Kind, Object};

/// Whether an object is of that kind and name.
pub(crate) fn is_key(kind: Kind, name: Label, object: &Object) -> bool
    ensures { result ≡ is_key kind name object.now }
{
    object.kind == kind && object.name.as_bytes() == name.as_bytes()
}
