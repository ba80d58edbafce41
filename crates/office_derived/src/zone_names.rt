//! The names of zones, in the order of their bytes.
ghost use Rattle.std.specs.Prelude.{◌≡◌, ◌≤◌, IfOk, insert, length, map};
ghost use Rattle.office_history.specs.Names.{is_behind, names_in_order, with_name};

use crate::zones::Zones;
use exact_fraction::ZoneName;
use std::alloc::{AllocError, Global};
use std::cmp::Ordering;

/// Whether a name comes behind another.
fn is_behind(name: &ZoneName, other: &ZoneName) -> bool
    ensures { result ≡ is_behind name.now other.now }
{
    match name.cmp(other) {
        Ordering::Greater => true,
        Ordering::Less | Ordering::Equal => false,
    }
}

/// Where a name belongs among names that are in order.
fn place_of(names: &[ZoneName], name: &ZoneName) -> usize
    ensures within { result ≤ length names.now }
    ensures place { insert names.now result name.now ≡ with_name name.now names.now }
{
    let mut place = 0;
    while place < names.len() {
        if !is_behind(name, &names[place]) {
            return place;
        }
        place += 1;
    }
    place
}

/// The names of zones, by their bytes.
pub fn names_in_order(alloc: Global, zones: &Zones) -> Result<Vec<ZoneName>, AllocError>
    ensures { IfOk result (λ names. names.items
        ≡ names_in_order (map (λ kept. kept.0) zones.now.kept)) }
{
    let names = zones.names(alloc)?;
    let mut sorted = Vec::new(alloc);
    let mut left = names.len();
    while left > 0 {
        left -= 1;
        let name = names[left];
        let place = place_of(&sorted, &name);
        sorted.insert(place, name)?;
    }
    Ok(sorted)
}
