//! Lists of members that know what they weigh together.
ghost use Rattle.std.specs.Prelude.{◌≡◌, ◌<◌, ◌≤◌, ◌+◌, ◌++◌, ◌∷◌, [], length, take, drop};
ghost use Rattle.std.specs.Prelude.{slice_set, IfOk, OnOk};
ghost use Rattle.catalog_terms.specs.Limits.{total_weight, weight as weight_def};

use crate::member::Member;
use std::alloc::{AllocError, Global};
use std::marker::Model;

/// Members, and what they weigh together.
#[derive(Drop)]
pub(crate) struct MemberList {
    members: Vec<Member>,
    // There are fewer than 2^64 members of less than 2^25 bytes each, so no sum comes near 2^128.
    bytes: u128,
}

impl Model for MemberList {
    ghost use Rattle.std.specs.Prelude.{◌≡◌, List};
    ghost use Rattle.std.specs.Coded.{coded_list};
    ghost use Rattle.object_terms.specs.declared.object.Object.{Object};
    ghost use Rattle.object_terms.specs.contracts.object.Object.{the_row};
    ghost use Rattle.catalog_terms.specs.Limits.{total_weight};

    ghost Value = { List Object };

    ghost coded = { coded_list the_row.coded };

    ghost view = { λ l. l.members.items };

    ghost invariant = { λ l. l.bytes ≡ total_weight l.members.items };
}

/// The members with another in the place of one of them.
fn replaced(mut members: Vec<Member>, place: usize, member: Member) -> Vec<Member>
    requires { place < length members.items }
    ensures { result.items ≡ slice_set members.items place member }
{
    members[place] = member;
    members
}

/// The members with another between them, where it has that place.
fn inserted(
    mut members: Vec<Member>,
    place: usize,
    member: Member,
) -> Result<Vec<Member>, AllocError>
    requires { place ≤ length members.items }
    ensures { IfOk result (λ new. new.items
        ≡ take place members.items ++ member ∷ drop place members.items) }
{
    members.insert(place, member)?;
    Ok(members)
}

/// The same members once more.
fn shared(alloc: Global, members: &[Member]) -> Result<Vec<Member>, AllocError>
    ensures { IfOk result (λ shared. shared.items ≡ members.now) }
{
    let mut shared = Vec::with_capacity(alloc, members.len())?;
    for member in members {
        shared.push(member.share()?)?;
    }
    Ok(shared)
}

impl MemberList {
    /// No members.
    pub(crate) fn new(alloc: Global) -> MemberList
        ensures { result ≡ [] }
    {
        MemberList {
            members: Vec::new(alloc),
            bytes: 0,
        }
    }

    /// The members in their order.
    pub(crate) fn as_slice(&self) -> &[Member]
        ensures { result.now ≡ self.now }
    {
        self.members.as_slice()
    }

    /// How many they are.
    fn count(&self) -> usize
        ensures { result ≡ length self.now }
    {
        self.as_slice().len()
    }

    /// What they weigh together.
    pub(crate) fn bytes(&self) -> u128
        ensures { result ≡ total_weight self.now }
    {
        self.bytes
    }

    /// What they and another member weigh together.
    fn bytes_with(&self, member: &Member) -> u128
        ensures { result ≡ total_weight self.now + weight_def member.now }
    {
        // The sum fits: their count is known to be below 2^64 where it is told.
        let _ = self.count();
        self.bytes + member.weight() as u128
    }

    /// The members with another in the place of one of them.
    pub(crate) fn replace(self, place: usize, member: Member) -> MemberList
        requires { place < length self }
        ensures { result ≡ slice_set self place member }
    {
        let bytes = self.bytes_with(&member) - self.members[place].weight() as u128;
        MemberList {
            members: replaced(self.members, place, member),
            bytes,
        }
    }

    /// The members with another between them, where it has that place.
    pub(crate) fn insert(self, place: usize, member: Member) -> Result<MemberList, AllocError>
        requires { place ≤ length self }
        ensures { IfOk result (λ list. list ≡ take place self ++ member ∷ drop place self) }
    {
        let bytes = self.bytes_with(&member);
        Ok(MemberList {
            members: inserted(self.members, place, member)?,
            bytes,
        })
    }

    /// Adds a member behind the others.
    pub(crate) fn push(&mut self, member: Member) -> Result<(), AllocError>
        ensures { OnOk result (self.new ≡ self.old ++ member ∷ []) }
    {
        let bytes = self.bytes_with(&member);
        self.members.push(member)?;
        self.bytes = bytes;
        Ok(())
    }

    /// The same members once more.
    pub(crate) fn share(&self, alloc: Global) -> Result<MemberList, AllocError>
        ensures { IfOk result (λ list. list ≡ self.now) }
    {
        Ok(MemberList {
            members: shared(alloc, self.members.as_slice())?,
            bytes: self.bytes,
        })
    }
}
