//! How far exclusions reach: the list in which an excluded minute is looked for.
ghost use Rattle.std.specs.Prelude.{◌≡◌, ◌≤◌, true, false, length, slice_get, vec_capacity};
ghost use Rattle.std.specs.List.{list_any};
ghost use Rattle.std.specs.List.Sorted.{IsPartitionPoint, IsPermutation, IsSortedByKey};
ghost use Rattle.sample_book.specs.Reaches.{AreOrdered, AreReaches, HaveBegun, all_joined};
ghost use Rattle.sample_book.specs.Reaches.{begins_at, begins_by, goes_past, has_minute};
ghost use Rattle.sample_book.specs.Reaches.{is_reach_of, joined, live_reaches, place_cmp};
ghost use Rattle.sample_book.specs.Reaches.{reach_of, start_of};

use crate::exclusions::Exclusion;
use exact_fraction::Label;

/// A live exclusion, and how far it and those of its SLO reach that begin no later.
#[derive(Clone, Copy)]
pub(crate) struct Reach {
    pub(crate) slo: Label,
    /// The first minute of the exclusion.
    pub(crate) from: u32,
    /// The minute behind the last one of them all.
    pub(crate) to: u32,
}

/// Where a look for an excluded minute ended. A walk over rows keeps one: its minutes lie near one
/// another, so most are told by the place of the one before, with no search. Nothing rests on it.
#[derive(Clone, Copy)]
pub struct ExclusionHint {
    /// So many reaches began at or before that minute.
    begun: usize,
}

impl ExclusionHint {
    /// No look yet.
    pub fn new() -> ExclusionHint {
        ExclusionHint { begun: 0 }
    }
}

/// How far an exclusion reaches by itself.
fn reach_of(value: &Exclusion) -> Reach
    ensures { result ≡ reach_of value.now }
{
    Reach {
        slo: value.slo,
        from: value.from,
        to: value.to,
    }
}

/// Lists the live exclusions, in the order in which they were made.
fn list_live(made: &[(Exclusion, bool)], reaches: &mut Vec<Reach>)
    requires { length made.now ≤ vec_capacity reaches.old }
    ensures listed { reaches.new.items ≡ live_reaches made.now }
    ensures capacity { vec_capacity reaches.old ≤ vec_capacity reaches.new }
{
    reaches.clear();
    for kept in made {
        if kept.1 {
            reaches.extend_from_slice(&[reach_of(&kept.0)]).unwrap();
        }
    }
}

/// Sorts by SLO, and then by first minute.
fn sort_by_start(reaches: &mut Vec<Reach>)
    ensures sorted { IsSortedByKey start_of place_cmp reaches.new.items }
    ensures permutation { IsPermutation reaches.old.items reaches.new.items }
    ensures capacity { vec_capacity reaches.new ≡ vec_capacity reaches.old }
{
    reaches.sort_unstable_by_key(
        |reach: &Reach| -> (Label, u32)
            ensures { result ≡ start_of reach.now }
        { (reach.slo, reach.from) },
    );
}

/// A reach that ends no sooner than the one before it, where that is of the same SLO.
fn joined(before: &Reach, reach: &Reach) -> Reach
    ensures { result ≡ joined before.now reach.now }
{
    if before.slo != reach.slo {
        return *reach;
    }
    Reach {
        slo: reach.slo,
        from: reach.from,
        to: reach.to.max(before.to),
    }
}

/// Lets each reach go on as far as those before it of its SLO.
fn join_all(reaches: &mut Vec<Reach>)
    ensures joined { reaches.new.items ≡ all_joined reaches.old.items }
    ensures capacity { vec_capacity reaches.new ≡ vec_capacity reaches.old }
{
    for place in 1..reaches.len() {
        reaches[place] = joined(&reaches[place - 1], &reaches[place]);
    }
}

/// Lists how far the live exclusions reach anew, with no memory.
pub(crate) fn make_reaches(made: &[(Exclusion, bool)], reaches: &mut Vec<Reach>)
    requires { length made.now ≤ vec_capacity reaches.old }
    ensures reaches { AreReaches made.now reaches.new.items }
    ensures capacity { vec_capacity reaches.old ≤ vec_capacity reaches.new }
{
    list_live(made, reaches);
    sort_by_start(reaches);
    join_all(reaches);
}

/// Whether a reach begins at or before a minute of an SLO, in the order of the list.
fn begins_by(slo: Label, minute: u32, reach: &Reach) -> bool
    ensures { result ≡ begins_by slo minute reach.now }
{
    reach.slo.cmp(&slo).then(reach.from.cmp(&minute)).is_le()
}

/// How many reaches begin at or before a minute of an SLO.
fn count_begun(reaches: &[Reach], slo: Label, minute: u32) -> usize
    requires { AreOrdered reaches.now }
    ensures within { result ≤ length reaches.now }
    ensures begun { IsPartitionPoint (λ reach. begins_by slo minute reach ≡ true)
        (λ reach. begins_by slo minute reach ≡ false) reaches.now result }
{
    reaches.partition_point(
        |reach: &Reach| -> bool
            ensures { result ≡ begins_by slo minute reach.now }
        { begins_by(slo, minute, reach) },
    )
}

/// Whether there is a reach at a place, and it begins at or before a minute of an SLO.
fn begins_at(reaches: &[Reach], place: usize, slo: Label, minute: u32) -> bool
    ensures { result ≡ begins_at slo minute (slice_get reaches.now place) }
{
    match reaches.get(place) {
        Some(reach) => begins_by(slo, minute, reach),
        None => false,
    }
}

/// Whether just so many reaches begin at or before a minute of an SLO: the last of them does, and
/// the next one doesn't.
fn have_begun(reaches: &[Reach], count: usize, slo: Label, minute: u32) -> bool
    requires { AreOrdered reaches.now }
    ensures { result ≡ true → HaveBegun slo minute reaches.now count }
{
    let goes_on = begins_at(reaches, count, slo, minute);
    if goes_on {
        return false;
    }
    if count == 0 {
        return true;
    }
    begins_at(reaches, count - 1, slo, minute)
}

/// How many reaches begin at or before a minute of an SLO: as many as at the look before, or else a
/// search tells it.
fn count_near(reaches: &[Reach], slo: Label, minute: u32, hint: &mut ExclusionHint) -> usize
    requires { AreOrdered reaches.now }
    ensures within { result ≤ length reaches.now }
    ensures begun { IsPartitionPoint (λ reach. begins_by slo minute reach ≡ true)
        (λ reach. begins_by slo minute reach ≡ false) reaches.now result }
{
    let before = hint.begun;
    let still = have_begun(reaches, before, slo, minute);
    if still {
        return before;
    }
    let begun = count_begun(reaches, slo, minute);
    hint.begun = begun;
    begun
}

/// Whether a reach is of an SLO, and ends behind a minute.
fn goes_past(slo: Label, minute: u32, reach: &Reach) -> bool
    ensures { result ≡ goes_past slo minute reach.now }
{
    reach.slo == slo && minute < reach.to
}

/// Whether one of the reaches has a minute of an SLO: the last one that begins by then goes past
/// it, or none does.
fn is_reached_by(reaches: &[Reach], begun: usize, slo: Label, minute: u32) -> bool
    requires ordered { AreOrdered reaches.now }
    requires within { begun ≤ length reaches.now }
    requires begun { IsPartitionPoint (λ reach. begins_by slo minute reach ≡ true)
        (λ reach. begins_by slo minute reach ≡ false) reaches.now begun }
    ensures { result ≡ list_any (has_minute slo minute) reaches.now }
{
    if begun == 0 {
        return false;
    }
    goes_past(slo, minute, &reaches[begun - 1])
}

/// Whether one of the reaches has a minute of an SLO, by one search.
pub(crate) fn is_reached(reaches: &[Reach], slo: Label, minute: u32) -> bool
    requires { AreOrdered reaches.now }
    ensures { result ≡ list_any (has_minute slo minute) reaches.now }
{
    let begun = count_begun(reaches, slo, minute);
    is_reached_by(reaches, begun, slo, minute)
}

/// The same, by a look at the place where the look before ended.
pub(crate) fn is_reached_near(
    reaches: &[Reach],
    slo: Label,
    minute: u32,
    hint: &mut ExclusionHint,
) -> bool
    requires { AreOrdered reaches.now }
    ensures { result ≡ list_any (has_minute slo minute) reaches.now }
{
    let begun = count_near(reaches, slo, minute, hint);
    is_reached_by(reaches, begun, slo, minute)
}

/// Whether one of the reaches is of an SLO.
pub(crate) fn has_reach_of(reaches: &[Reach], slo: Label) -> bool
    ensures { result ≡ list_any (is_reach_of slo) reaches.now }
{
    reaches.iter().any(|reach| reach.slo == slo)
}
