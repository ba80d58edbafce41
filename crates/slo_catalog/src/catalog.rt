//! Catalogs.
ghost use Rattle.std.specs.Prelude.{◌≡◌, [], IfSome};
ghost use Rattle.std.specs.List.{slice_get};
ghost use Rattle.std.specs.Option.{option_copied};
ghost use Rattle.object_terms.specs.Document.{IsOfDocument};
ghost use Rattle.catalog_terms.specs.Keys.{IsSorted, member_of};
ghost use Rattle.catalog_terms.specs.References.{IsLegal};
ghost use Rattle.slo_catalog.specs.Whole.{CatalogIsWhole};

use crate::member::Member;
use crate::members::Members;
use exact_fraction::Label;
use object_terms::{Kind, Object};
use std::alloc::Global;
use std::marker::Model;

/// Objects by kind and name, each kind and name once. Each reference of each of them names one of
/// them, or a policy that is always there; each SLO has what its indicator asks for; and no limit
/// is passed.
#[derive(Drop)]
pub struct Catalog {
    members: Members,
}

impl Model for Catalog {
    ghost use Rattle.std.specs.Prelude.{List};
    ghost use Rattle.std.specs.Coded.{coded_list};
    ghost use Rattle.object_terms.specs.declared.object.Object.{Object};
    ghost use Rattle.object_terms.specs.contracts.object.Object.{the_row};
    ghost use Rattle.slo_catalog.specs.Whole.{CatalogIsWhole};

    ghost Value = { List Object };

    ghost coded = { coded_list the_row.coded };

    ghost view = { λ c. c.members };

    ghost invariant = { λ c. CatalogIsWhole c.members };
}

impl Catalog {
    /// A catalog with no objects.
    pub fn new(alloc: Global) -> Catalog
        ensures { result ≡ [] }
    {
        Catalog {
            members: Members::new(alloc),
        }
    }

    /// The catalog of these members, of which all holds that holds of a catalog.
    pub(crate) fn of(members: Members) -> Catalog
        requires { CatalogIsWhole members }
        ensures { result ≡ members }
    {
        Catalog { members }
    }

    /// The members, with what is known of all of them.
    pub(crate) fn sorted(&self) -> &Members
        ensures all { result.now ≡ self.now }
        ensures sorted { IsSorted self.now }
        ensures legal { IsLegal self.now }
        ensures whole { CatalogIsWhole self.now }
    {
        // Members are known to be sorted by the list that they give.
        let _ = self.members.as_slice();
        &self.members
    }

    /// What holds of each catalog: its references are resolved, objectives over values have `op`
    /// and `value`, and no limit is passed.
    pub fn is_whole(&self)
        ensures { CatalogIsWhole self.now }
    {
        // What holds of the type is known where a field is used.
        let _ = &self.members;
    }

    /// The members, by kind and then by the bytes of the name.
    pub fn members(&self) -> &[Member]
        ensures all { result.now ≡ self.now }
        ensures sorted { IsSorted self.now }
        ensures legal { IsLegal self.now }
    {
        self.sorted().as_slice()
    }

    /// The object at that place of the list, from 0: none exactly where the place isn't below the
    /// count.
    pub fn object_at(&self, place: u32) -> Option<&Object>
        ensures there { option_copied result ≡ slice_get self.now place }
        ensures written { IfSome result (λ object. IsOfDocument object.now) }
    {
        match self.members().get(place as usize) {
            Some(member) => Some(member.object()),
            None => None,
        }
    }

    /// The object of that kind and name: none exactly where there is no such member.
    pub fn find(&self, kind: Kind, name: Label) -> Option<&Object>
        ensures there { option_copied result ≡ member_of self.now kind name }
        ensures written { IfSome result (λ object. IsOfDocument object.now) }
    {
        match self.sorted().find(kind, name) {
            Some(member) => Some(member.object()),
            None => None,
        }
    }
}
