//! Sorted members.
ghost use Rattle.std.specs.Prelude.{◌≡◌, [], IfOk, MatchResult};
ghost use Rattle.std.specs.Option.{option_copied};
ghost use Rattle.catalog_terms.specs.Catalog.{with_member, with_members, without};
ghost use Rattle.catalog_terms.specs.Keys.{IsSorted, member_of, key_cmp};
ghost use Rattle.catalog_terms.specs.Limits.{total_weight};
ghost use Rattle.slo_catalog.specs.Places.{StandsAt, BelongsAt};

use crate::key::is_key;
use crate::member::Member;
use crate::member_list::MemberList;
use exact_fraction::Label;
use object_terms::{Kind, Object};
use std::alloc::{AllocError, Global};
use std::cmp::Ordering;
use std::marker::Model;

/// Members by kind and then by the bytes of the name, each kind and name once.
#[derive(Drop)]
pub(crate) struct Members {
    list: MemberList,
}

impl Model for Members {
    ghost use Rattle.std.specs.Prelude.{List};
    ghost use Rattle.std.specs.Coded.{coded_list};
    ghost use Rattle.object_terms.specs.declared.object.Object.{Object};
    ghost use Rattle.object_terms.specs.contracts.object.Object.{the_row};
    ghost use Rattle.catalog_terms.specs.Keys.{IsSorted};

    ghost Value = { List Object };

    ghost coded = { coded_list the_row.coded };

    ghost view = { λ m. m.list };

    ghost invariant = { λ m. IsSorted m.list };
}

/// How an object stands to a kind and a name in the order of a catalog.
fn compare(object: &Object, kind: Kind, name: Label) -> Ordering
    ensures { result ≡ key_cmp object.now.kind object.now.name kind name }
{
    object.kind.cmp(&kind).then(object.name.cmp(&name))
}

/// Where among sorted members the one of that kind and name stands, or else where it belongs.
fn place_of(members: &[Member], kind: Kind, name: Label) -> Result<usize, usize>
    requires { IsSorted members.now }
    ensures { MatchResult result (StandsAt kind name members.now)
        (BelongsAt kind name members.now) }
{
    let mut low = 0;
    let mut high = members.len();
    while low < high {
        let middle = low + (high - low) / 2;
        match compare(members[middle].object(), kind, name) {
            Ordering::Less => low = middle + 1,
            Ordering::Equal => return Ok(middle),
            Ordering::Greater => high = middle,
        }
    }
    Err(low)
}

/// Puts a member at its place among sorted ones, where it replaces the one of its kind and name.
fn put_in(members: MemberList, member: Member) -> Result<MemberList, AllocError>
    requires { IsSorted members }
    ensures { IfOk result (λ new. new ≡ with_member member members) }
{
    let object = member.object();
    match place_of(members.as_slice(), object.kind, object.name) {
        Ok(place) => Ok(members.replace(place, member)),
        Err(place) => members.insert(place, member),
    }
}

impl Members {
    /// No members.
    pub(crate) fn new(alloc: Global) -> Members
        ensures { result ≡ [] }
    {
        Members {
            list: MemberList::new(alloc),
        }
    }

    /// The members in their order.
    pub(crate) fn as_slice(&self) -> &[Member]
        ensures all { result.now ≡ self.now }
        ensures sorted { IsSorted self.now }
    {
        self.list.as_slice()
    }

    /// What they weigh together.
    pub(crate) fn bytes(&self) -> u128
        ensures { result ≡ total_weight self.now }
    {
        self.list.bytes()
    }

    /// The member of that kind and name: none exactly where there is none.
    pub(crate) fn find(&self, kind: Kind, name: Label) -> Option<&Member>
        ensures { option_copied result ≡ member_of self.now kind name }
    {
        let members = self.as_slice();
        match place_of(members, kind, name) {
            Ok(place) => Some(&members[place]),
            Err(_) => None,
        }
    }

    /// The members with another at its place, where it replaces the one of its kind and name.
    pub(crate) fn put(self, member: Member) -> Result<Members, AllocError>
        ensures { IfOk result (λ members. members ≡ with_member member self) }
    {
        Ok(Members {
            list: put_in(self.list, member)?,
        })
    }

    /// The members with others at their places, put there one after another.
    pub(crate) fn put_all(self, others: &[Member]) -> Result<Members, AllocError>
        ensures { IfOk result (λ members. members ≡ with_members others.now self) }
    {
        let mut members = self;
        for member in others {
            members = members.put(member.share()?)?;
        }
        Ok(members)
    }

    /// The same members once more.
    pub(crate) fn share(&self, alloc: Global) -> Result<Members, AllocError>
        ensures { IfOk result (λ members. members ≡ self.now) }
    {
        Ok(Members {
            list: self.list.share(alloc)?,
        })
    }

    /// The members but for the one of that kind and name.
    pub(crate) fn without(
        &self,
        alloc: Global,
        kind: Kind,
        name: Label,
    ) -> Result<Members, AllocError>
        ensures { IfOk result (λ members. members ≡ without kind name self.now) }
    {
        Ok(Members {
            list: shared_without(alloc, self.as_slice(), kind, name)?,
        })
    }
}

/// The same members once more, but for the one of that kind and name.
fn shared_without(
    alloc: Global,
    members: &[Member],
    kind: Kind,
    name: Label,
) -> Result<MemberList, AllocError>
    ensures { IfOk result (λ kept. kept ≡ without kind name members.now) }
{
    let mut kept = MemberList::new(alloc);
    for member in members {
        if !is_key(kind, name, member.object()) {
            kept.push(member.share()?)?;
        }
    }
    Ok(kept)
}
