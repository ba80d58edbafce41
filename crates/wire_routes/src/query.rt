//! The items of a query.
ghost use Rattle.std.specs.Prelude.{◌≡◌, ◌∷◌, [], option_map, MatchOption};
ghost use Rattle.std.specs.List.{list_all};
ghost use Rattle.wire_routes.specs.Queries.{bytes_of, is_known, items_of, key_values, only_of};
ghost use Rattle.wire_routes.specs.Queries.{value_of};
ghost use Rattle.wire_routes.specs.Queries.{values_of};

use crate::cuts::cut_at;
use std::marker::Model;

/// The items that are left. Contracts see them as a list.
#[derive(Drop)]
struct Items<'a> {
    rest: Option<&'a [u8]>,
}

impl<'a> Model for Items<'a> {
    ghost use Rattle.std.specs.Prelude.{ℕ, List, option_map};
    ghost use Rattle.wire_routes.specs.Queries.{items_left};

    ghost Value = { List (List ℕ) };

    ghost view = { λ i. items_left (option_map (λ t. t.now) i.rest) };
}

impl<'a> Items<'a> {
    fn new(query: &'a [u8]) -> Items<'a>
        ensures { result ≡ items_of query.now }
    {
        Items { rest: Some(query) }
    }

    fn next(&mut self) -> Option<&'a [u8]>
        ensures { MatchOption result (self.old ≡ []) (λ item. self.old ≡ item.now ∷ self.new) }
    {
        let text = self.rest?;
        match cut_at(text, b'&') {
            Some((item, rest)) => {
                self.rest = Some(rest);
                Some(item)
            }
            None => {
                self.rest = None;
                Some(text)
            }
        }
    }
}

fn is_known(item: &[u8], first: &[u8], second: &[u8], third: &[u8]) -> bool
    ensures { result ≡ is_known first.now second.now third.now item.now }
{
    match cut_at(item, b'=') {
        Some((key, _)) => key == first || (key == second || key == third),
        None => false,
    }
}

/// Whether each item has one of the keys.
fn all_known(query: &[u8], first: &[u8], second: &[u8], third: &[u8]) -> bool
    ensures { result ≡ list_all (is_known first.now second.now third.now) (items_of query.now) }
{
    let mut items = Items::new(query);
    'items: while let Some(item) = items.next() {
        if !is_known(item, first, second, third) {
            return false;
        }
    }
    true
}

/// The value of an item with that key.
fn value_of<'a>(item: &'a [u8], key: &[u8]) -> Option<&'a [u8]>
    ensures { option_map (λ v. v.now) result ≡ value_of key.now item.now }
{
    let (name, value) = cut_at(item, b'=')?;
    if name == key { Some(value) } else { None }
}

/// The one value of a key, or that there is none; none where the key is there twice.
fn only<'a>(query: &'a [u8], key: &[u8]) -> Option<Option<&'a [u8]>>
    ensures { option_map (λ o. option_map (λ v. v.now) o) result
        ≡ only_of (values_of key.now (items_of query.now)) }
{
    let mut found: Option<&[u8]> = None;
    let mut items = Items::new(query);
    'items: while let Some(item) = items.next() {
        if let Some(value) = value_of(item, key) {
            if found.is_some() {
                return None;
            }
            found = Some(value);
        }
    }
    Some(found)
}

/// The values of three keys, each where it is there; none where an item is no `key=value` with one
/// of the keys, or a key is there twice. A route of one key or two names a key again.
pub(crate) fn read_query<'a>(
    query: Option<&'a [u8]>,
    first: &[u8],
    second: &[u8],
    third: &[u8],
) -> Option<(Option<&'a [u8]>, Option<&'a [u8]>, Option<&'a [u8]>)>
    ensures { option_map (λ p. (
      option_map (λ v. v.now) p.0,
      option_map (λ v. v.now) p.1,
      option_map (λ v. v.now) p.2,
    )) result
        ≡ key_values (bytes_of query.entry) first.now second.now third.now }
{
    let Some(query) = query else {
        return Some((None, None, None));
    };
    if !all_known(query, first, second, third) {
        return None;
    }
    let a = only(query, first)?;
    let b = only(query, second)?;
    let c = only(query, third)?;
    Some((a, b, c))
}
