//! The zones that were put.
ghost use Rattle.std.specs.Prelude.{◌≡◌, ◌+◌, ◌<◌, ◌≤◌, ◌++◌, ◌∷◌, [], length, map, Some, IfOk};
ghost use Rattle.std.specs.Prelude.{OnOk, IfSome, option_map, option_and_then};
ghost use Rattle.std.specs.Option.{option_copied};
ghost use Rattle.zone_calendar.specs.ZoneBytes.{zone_of};
ghost use Rattle.std.specs.List.{find};
ghost use Rattle.std.specs.Str.{bytes_eq};
ghost use Rattle.office_history.specs.Zones.{bytes_named};
ghost use Rattle.office_derived.specs.declared.zones.KeptZone.{KeptZone};

use exact_fraction::{Bytes, ZoneName};
use std::alloc::{AllocError, Global};
use std::marker::Model;
use zone_calendar::Zone;

/// A zone, with the bytes that say it and the name that it was given.
#[derive(Drop)]
pub(crate) struct KeptZone {
    name: ZoneName,
    bytes: Bytes,
    zone: Zone,
}

/// The zones that were put, in their order, beside the one that is always there.
#[derive(Drop)]
pub struct Zones {
    kept: Vec<KeptZone>,
}

impl Model for Zones {
    ghost use Rattle.std.specs.Prelude.{◌-◌, ◌≡◌, List, Some, map, vec_capacity, vec_len};
    ghost use Rattle.std.specs.List.{AllByRecursion};
    ghost use Rattle.office_derived.specs.Zones.{KeptZones, ZoneIsRead};
    ghost use Rattle.office_derived.specs.declared.zones.KeptZone.{KeptZone};

    ghost Value = { KeptZones };

    ghost view = { λ a. record {
      kept = map (λ (k : KeptZone). (k.name, k.bytes)) a.kept.items;
      spare = vec_capacity a.kept - vec_len a.kept;
    } };

    ghost invariant = { λ a. AllByRecursion (λ (k : KeptZone). ZoneIsRead k.bytes k.zone)
        a.kept.items };
}

impl Zones {
    /// No zones yet. Takes no memory.
    pub fn new(alloc: Global) -> Zones
        ensures { result.kept ≡ [] }
    {
        Zones {
            kept: Vec::new(alloc),
        }
    }

    /// How many there are.
    pub fn count(&self) -> u64
        ensures { result ≡ length self.now.kept }
    {
        self.kept.len() as u64
    }

    /// The names, in the order in which they were put.
    pub fn names(&self, alloc: Global) -> Result<Vec<ZoneName>, AllocError>
        ensures { IfOk result (λ names. names.items ≡ map (λ kept. kept.0) self.now.kept) }
    {
        let mut names = Vec::new(alloc);
        for kept in &self.kept {
            names.push(kept.name)?;
        }
        Ok(names)
    }

    /// The bytes that are kept under a name.
    pub fn bytes_of(&self, name: ZoneName) -> Option<&[u8]>
        ensures { option_copied result ≡ bytes_named self.now.kept name }
    {
        match kept_as(&self.kept, name) {
            Some(kept) => Some(kept.bytes.as_bytes()),
            None => None,
        }
    }

    /// The zone whose bytes are kept under a name.
    pub fn zone_of(&self, name: ZoneName) -> Option<&Zone>
        ensures { option_copied result ≡ option_and_then zone_of (bytes_named self.now.kept name) }
    {
        match kept_as(&self.kept, name) {
            Some(kept) => Some(&kept.zone),
            None => None,
        }
    }

    /// Makes room for so many zones more. After an error the zones are as before.
    pub fn reserve(&mut self, places: u32) -> Result<(), AllocError>
        ensures kept { self.new.kept ≡ self.old.kept }
        ensures spare { OnOk result (places ≤ self.new.spare) }
    {
        self.kept.reserve(places as usize)
    }

    /// Keeps a zone with its name and bytes. There is room for it.
    pub fn push(&mut self, name: ZoneName, bytes: Bytes, zone: Zone)
        requires room { 0 < self.old.spare }
        requires read { zone_of bytes ≡ Some zone }
        ensures kept { self.new.kept ≡ self.old.kept ++ (name, bytes) ∷ [] }
    {
        self.kept.push(KeptZone { name, bytes, zone }).unwrap();
    }
}

/// The first zone of that name.
fn kept_as(kept: &[KeptZone], name: ZoneName) -> Option<&KeptZone>
    ensures { option_copied result ≡ find (λ (zone : KeptZone). bytes_eq zone.name name) kept.now }
{
    for zone in kept {
        if zone.name.as_bytes() == name.as_bytes() {
            return Some(zone);
        }
    }
    None
}
