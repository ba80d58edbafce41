//! The places of a list at which something waits, linked with one another.
ghost use Rattle.std.specs.Prelude.{◌≡◌, ℕ, ◌-◌, ◌<◌, ◌==◌, ◌∷◌, [], ◌++◌, false, length};
ghost use Rattle.std.specs.Prelude.{slice_index_or, slice_set, vec_capacity, vec_len, Some};
ghost use Rattle.std.specs.Prelude.{if◌then◌else◌};
ghost use Rattle.notice_box.specs.Links.{earlier_at, if_there, is_at, later_at, no_link};
ghost use Rattle.notice_box.specs.Box.{no_notice, waits};

use crate::notice::Notice;

/// The nearest places before and behind a place at which something waits.
#[derive(Clone, Copy)]
pub(crate) struct Link {
    pub(crate) earlier: Option<u32>,
    pub(crate) later: Option<u32>,
}

/// Lets the place before, or where there is none the whole list, go on at `later`.
pub(crate) fn go_on(
    links: &mut Vec<Link>,
    first: Option<u32>,
    earlier: Option<u32>,
    later: Option<u32>,
) -> Option<u32>
    requires { (place : ℕ) → earlier ≡ Some place → place < length links.old.items }
    ensures first { result ≡ if_there earlier first later }
    ensures later { (place : ℕ) → later_at links.new.items place
        ≡ (if is_at earlier place then later else later_at links.old.items place) }
    ensures earlier { (place : ℕ) → earlier_at links.new.items place
        ≡ earlier_at links.old.items place }
    ensures len { length links.new.items ≡ length links.old.items }
    ensures room { vec_capacity links.new - vec_len links.new
        ≡ vec_capacity links.old - vec_len links.old }
{
    match earlier {
        Some(place) => {
            links[place as usize].later = later;
            first
        }
        None => later,
    }
}

/// Lets the place behind, or where there is none the whole list, come from `earlier`.
pub(crate) fn come_from(
    links: &mut Vec<Link>,
    last: Option<u32>,
    later: Option<u32>,
    earlier: Option<u32>,
) -> Option<u32>
    requires { (place : ℕ) → later ≡ Some place → place < length links.old.items }
    ensures last { result ≡ if_there later last earlier }
    ensures earlier { (place : ℕ) → earlier_at links.new.items place
        ≡ (if is_at later place then earlier else earlier_at links.old.items place) }
    ensures later { (place : ℕ) → later_at links.new.items place ≡ later_at links.old.items place }
    ensures len { length links.new.items ≡ length links.old.items }
    ensures room { vec_capacity links.new - vec_len links.new
        ≡ vec_capacity links.old - vec_len links.old }
{
    match later {
        Some(place) => {
            links[place as usize].earlier = earlier;
            last
        }
        None => earlier,
    }
}

pub(crate) fn link_at(links: &[Link], place: u32) -> Link
    requires { place < length links.now }
    ensures { result ≡ slice_index_or links.now place no_link }
{
    links[place as usize]
}

pub(crate) fn waits_at(made: &[(Notice, bool)], place: u32) -> bool
    requires { place < length made.now }
    ensures { result ≡ waits made.now place }
{
    made[place as usize].1
}

pub(crate) fn notice_at(made: &[(Notice, bool)], place: u32) -> Notice
    requires { place < length made.now }
    ensures { result ≡ (slice_index_or made.now place no_notice).0 }
{
    made[place as usize].0
}

/// The notice at a place waits no more.
pub(crate) fn let_go(made: &mut Vec<(Notice, bool)>, place: u32)
    requires { place < length made.old.items }
    ensures made { made.new.items ≡ slice_set made.old.items place
        ((slice_index_or made.old.items place no_notice).0, false) }
    ensures room { vec_capacity made.new - vec_len made.new
        ≡ vec_capacity made.old - vec_len made.old }
{
    let notice = notice_at(made, place);
    made[place as usize] = (notice, false);
}
