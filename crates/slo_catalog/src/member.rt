//! Members: the objects of a catalog, which catalogs share.
ghost use Rattle.std.specs.Prelude.{◌≡◌, IfOk};
ghost use Rattle.std.specs.List.{All};
ghost use Rattle.object_terms.specs.Document.{IsOfDocument};
ghost use Rattle.catalog_terms.specs.Limits.{weight as weight_def};

use object_terms::{Object, Objects};
use object_writing::object_length;
use slo_limits::MAX_CATALOG_BYTES;
use std::alloc::{AllocError, Global};
use std::marker::Model;
use std::sync::Arc;

/// An object of a catalog. Catalogs share it: to share a member takes no memory.
#[derive(Drop)]
pub struct Member {
    object: Arc<Object, Global>,
    weight: usize,
}

impl Model for Member {
    ghost use Rattle.object_terms.specs.declared.object.Object.{Object};
    ghost use Rattle.object_terms.specs.contracts.object.Object.{the_row};
    ghost use Rattle.std.specs.Arc.{arc_value};
    ghost use Rattle.slo_catalog.specs.Members.{IsWeighed};

    ghost Value = { Object };

    ghost coded = { the_row.coded };

    ghost view = { λ m. arc_value m.object };

    ghost invariant = { λ m. IsWeighed (arc_value m.object) m.weight };
}

/// What an object weighs that is above the limit by itself.
const ABOVE: usize = MAX_CATALOG_BYTES + 1;

/// The weight of an object: how many bytes its canonical writing has, which is counted up to the
/// limit and not made.
fn weight(alloc: Global, object: &Object) -> Result<usize, AllocError>
    requires { IsOfDocument object.now }
    ensures { IfOk result (λ weight. weight ≡ weight_def object.now) }
{
    match object_length(alloc, object, MAX_CATALOG_BYTES)? {
        Some(bytes) => Ok(bytes),
        None => Ok(ABOVE),
    }
}

impl Member {
    ghost use Rattle.std.specs.Prelude.{◌≡◌, ◌+◌, ◌≤◌, IfOk};
    ghost use Rattle.slo_limits.specs.declared.TheConstants.{MAX_CATALOG_BYTES};
    ghost use Rattle.object_terms.specs.Document.{IsOfDocument};
    ghost use Rattle.catalog_terms.specs.Limits.{weight as weight_def};

    /// A member that is an object, which is weighed once, here.
    pub(crate) fn of(alloc: Global, object: Object) -> Result<Member, AllocError>
        requires { IsOfDocument object }
        ensures { IfOk result (λ member. member ≡ object) }
    {
        let object = Arc::new(alloc, object)?;
        let weight = weight(alloc, &object)?;
        Ok(Member { object, weight })
    }

    /// The object.
    pub fn object(&self) -> &Object
        ensures all { result.now ≡ self.now }
        ensures written { IsOfDocument self.now }
    {
        &self.object
    }

    /// How many bytes its canonical writing has, or one more than the limit where it has more.
    #[tactic(auto, using(crate::proofs::WeightLemmas::weight_few))]
    pub(crate) fn weight(&self) -> usize
        ensures exact { result ≡ weight_def self.now }
        ensures few { result ≤ MAX_CATALOG_BYTES + 1 }
    {
        self.weight
    }

    /// The same member once more.
    pub(crate) fn share(&self) -> Result<Member, AllocError>
        ensures { IfOk result (λ member. member ≡ self.now) }
    {
        Ok(Member {
            object: Arc::try_clone(&self.object)?,
            weight: self.weight,
        })
    }
}

/// Members that are these objects, in their order.
pub(crate) fn members_of(alloc: Global, objects: Objects) -> Result<Vec<Member>, AllocError>
    requires { All IsOfDocument objects }
    ensures { IfOk result (λ members. members.items ≡ objects) }
{
    let mut members = Vec::new(alloc);
    for object in objects.into_items() {
        members.push(Member::of(alloc, object)?)?;
    }
    Ok(members)
}
