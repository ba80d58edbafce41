//! Zones.
ghost use Rattle.std.specs.Prelude.{◌≡◌, ℕ, [], ◌∷◌, List, None, OnOk, length, nat_lt};
ghost use Rattle.std.specs.Str.{bytes_eq};
ghost use Rattle.slo_limits.specs.declared.TheConstants.{MAX_ZONE_BYTES};
ghost use Rattle.record_form.specs.declared.Command.TheVariants.{PutZone};
ghost use Rattle.record_form.specs.declared.LimitName.TheVariants as limits;
ghost use Rattle.record_form.specs.declared.Refusal.TheVariants as refusals;
ghost use Rattle.zone_calendar.specs.Zone.{ZoneText};
ghost use Rattle.office_history.specs.Batches.{when};
ghost use Rattle.office_history.specs.Lists.{first_some};
ghost use Rattle.office_history.specs.History.{Office, with_entry};
ghost use Rattle.office_history.specs.Outcomes.{outcome_of};
ghost use Rattle.office_history.specs.Verdicts.{zone_verdict, zone_verdict_beside};
ghost use Rattle.office_history.specs.Zones.{utc};
ghost use Rattle.office_derived.specs.Derived.{HasRoom, IsJudged, IsNext, IsSound, Reflects, Stays};
ghost use Rattle.office_derived.specs.Derived.{entry_of};
ghost use Rattle.office_derived.specs.declared.Work.TheVariants as works;
ghost use Rattle.catalog_changes.specs.Judging.{IsJudgedBy, IsZoneWork};

use crate::copies::copy_of;
use exact_fraction::{Bytes, ZoneName};
use office_derived::{Derived, Verdict, Work, accepted};
use office_history::Judgement;
use record_form::{LimitName, Outcome, Refusal};
use slo_limits::{MAX_ZONE_BYTES, MAX_ZONES};
use std::alloc::{AllocError, Global};
use zone_calendar::{Zone, ZoneFault, read_zone};

/// What is wrong with a zone before its bytes are read.
fn form_fault(name: ZoneName, bytes: &[u8]) -> Option<Refusal>
    ensures { result ≡ first_some (when (bytes_eq name utc) (refusals.ReservedZone name)
        ∷ when (nat_lt MAX_ZONE_BYTES (length bytes.now)) (refusals.Limit limits.ZoneBytes) ∷ []) }
{
    if name.as_str() == "UTC" {
        return Some(Refusal::ReservedZone { name });
    }
    if MAX_ZONE_BYTES < bytes.len() {
        return Some(Refusal::Limit {
            which: LimitName::ZoneBytes,
        });
    }
    None
}

/// What becomes of bytes under a name that has none.
fn judged_new(alloc: Global, derived: &Derived, name: ZoneName, bytes: &Bytes) -> Verdict<Work>
    ensures { IsJudgedBy
        (λ j. j ≡ zone_verdict_beside None (length derived.now.zones.kept) derived.now.entries name
        bytes.now)
        (IsZoneWork name bytes.now) result }
{
    let zone = match read_zone(alloc, bytes.as_bytes()) {
        Ok(zone) => zone,
        Err(ZoneFault::BadZone) => return Verdict::Refused(Refusal::BadZone { name }),
        Err(ZoneFault::NoMemory) => return Verdict::NoMemory,
    };
    if MAX_ZONES as u64 <= derived.zones.count() {
        return Verdict::Refused(Refusal::Limit {
            which: LimitName::Zones,
        });
    }
    match accepted(derived.entries) {
        Judgement::Accepted => match copy_of(alloc, bytes) {
            Ok(bytes) => Verdict::Ready(Work::PutZone { name, bytes, zone }),
            Err(AllocError) => Verdict::NoMemory,
        },
        Judgement::Same(outcome) => Verdict::Same(outcome),
        Judgement::Refused(refusal) => Verdict::Refused(refusal),
    }
}

/// What becomes of a zone over what is kept.
fn judged_zone(alloc: Global, derived: &Derived, name: ZoneName, bytes: &Bytes) -> Verdict<Work>
    ensures { IsJudgedBy
        (λ j. j ≡ zone_verdict derived.now.zones.kept derived.now.entries name bytes.now)
        (IsZoneWork name bytes.now) result }
{
    if let Some(refusal) = form_fault(name, bytes.as_bytes()) {
        return Verdict::Refused(refusal);
    }
    match derived.zones.bytes_of(name) {
        Some(kept) => {
            if kept == bytes.as_bytes() {
                Verdict::Same(Outcome::Changed { entry: None })
            } else {
                Verdict::Refused(Refusal::ZoneDiffers { name })
            }
        }
        None => judged_new(alloc, derived, name, bytes),
    }
}

/// What becomes of the bytes of a zone at a moment. `UTC` is reserved, and the bytes may be only so
/// many; bytes that are kept under the name are the same, or refuse others; new ones have to be a
/// zone, and then the limits of zones and of entries are tried.
pub fn judge_put_zone(
    alloc: Global,
    derived: &Derived,
    moment: u32,
    name: ZoneName,
    bytes: &Bytes,
) -> Verdict<Work>
    requires { IsSound derived.now }
    ensures { (o : Office) → Reflects derived.now o →
        IsJudged o moment (PutZone name bytes.now) result }
{
    judged_zone(alloc, derived, name, bytes)
}

/// Makes room for a zone. After an error all is as before.
pub fn room_for_put_zone(derived: &mut Derived) -> Result<(), AllocError>
    ensures room { (name bytes : List ℕ) (zone : ZoneText) →
        OnOk result (HasRoom derived.new (works.PutZone name bytes zone)) }
    ensures stays { Stays derived.old derived.new }
{
    derived.zones.reserve(1)
}

/// Keeps a zone at a moment, in minutes since 1970-01-01T00:00Z, and it is one entry more. Takes no
/// memory: there is room for it.
pub fn apply_put_zone(
    derived: &mut Derived,
    moment: u32,
    name: ZoneName,
    bytes: Bytes,
    zone: Zone,
) -> Outcome
    requires sound { IsSound derived.old }
    requires room { HasRoom derived.old (works.PutZone name bytes zone) }
    requires next { (o : Office) × IsNext derived.old o moment (works.PutZone name bytes zone) }
    ensures reflects { (o : Office) → IsNext derived.old o moment (works.PutZone name bytes zone) →
        Reflects derived.new (with_entry o (entry_of moment (works.PutZone name bytes zone))) }
    ensures sound { IsSound derived.new }
    ensures outcome { (o : Office) → IsNext derived.old o moment (works.PutZone name bytes zone) →
        result ≡ outcome_of o moment (PutZone name bytes) }
{
    let entry = derived.entries;
    derived.entries = entry + 1;
    derived.present = moment;
    derived.zones.push(name, bytes, zone);
    Outcome::Changed { entry: Some(entry) }
}
