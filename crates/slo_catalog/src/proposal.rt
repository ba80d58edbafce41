//! Proposals: what a definition would leave, before the limits are tried.
ghost use Rattle.std.specs.Prelude.{◌≡◌};
ghost use Rattle.catalog_terms.specs.Keys.{IsSorted};
ghost use Rattle.slo_catalog.specs.Whole.{IsJoined};
ghost use Rattle.catalog_terms.specs.Define.{Defines, within_limits};

use crate::catalog::Catalog;
use crate::limits::first_limit;
use crate::member::Member;
use crate::members::Members;
use catalog_terms::{CatalogFault, DefineError};
use std::alloc::Global;
use std::marker::Model;

/// Members whose references are resolved and whose SLOs have what their indicators ask for, and
/// which may pass a limit.
#[derive(Drop)]
pub struct Proposal {
    members: Members,
    same: bool,
}

impl Model for Proposal {
    ghost use Rattle.std.specs.Prelude.{List, Bool};
    ghost use Rattle.std.specs.Coded.{coded_list, coded_bool, coded×};
    ghost use Rattle.object_terms.specs.declared.object.Object.{Object};
    ghost use Rattle.object_terms.specs.contracts.object.Object.{the_row};
    ghost use Rattle.slo_catalog.specs.Whole.{IsJoined};

    ghost Value = { List Object × Bool };

    ghost coded = { coded× (coded_list the_row.coded) coded_bool };

    ghost view = { λ p. (p.members, p.same) };

    ghost invariant = { λ p. IsJoined p.members };
}

/// The catalog of members, unless they pass a limit.
fn admitted(alloc: Global, members: Members) -> Result<Members, DefineError>
    ensures { Defines result (within_limits members) }
{
    match first_limit(alloc, &members)? {
        Some(limit) => Err(DefineError::Fault(CatalogFault::Limit(limit))),
        None => Ok(members),
    }
}

impl Proposal {
    /// The proposal of these members, of which all but the limits holds.
    pub(crate) fn of(members: Members, same: bool) -> Proposal
        requires { IsJoined members }
        ensures { result ≡ (members, same) }
    {
        Proposal { members, same }
    }

    /// Whether it leaves the catalog as it is: each object of the text is written as the member of
    /// its kind and name.
    pub fn leaves(&self) -> bool
        ensures { result ≡ self.now.1 }
    {
        self.same
    }

    /// The members, by kind and then by the bytes of the name.
    pub fn members(&self) -> &[Member]
        ensures all { result.now ≡ self.now.0 }
        ensures sorted { IsSorted self.now.0 }
    {
        self.members.as_slice()
    }

    /// The catalog of these members.
    ///
    /// # Errors
    ///
    /// The first limit that they pass. Or memory ran out.
    pub fn admitted(self, alloc: Global) -> Result<Catalog, DefineError>
        ensures { Defines result (within_limits self.0) }
    {
        match admitted(alloc, self.members) {
            Ok(members) => Ok(Catalog::of(members)),
            Err(fault) => Err(fault),
        }
    }
}
