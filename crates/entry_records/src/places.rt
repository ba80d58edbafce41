//! Records at their places.
ghost use Rattle.std.specs.Prelude.{◌≡◌, ◌≤◌, ◌<◌, List, ℕ, length, IfSome, None, option_map};
ghost use Rattle.std.specs.Prelude.{slice_get};
ghost use Rattle.entry_records.specs.Kept.{Holds, IsAt, IsKept, ends_from, records_in};
ghost use Rattle.entry_records.specs.Kept.{start_of, taken_by};

fn end_at(ends: &[u32], place: usize) -> Option<u32>
    ensures { result ≡ slice_get ends.now place }
{
    ends.get(place).copied()
}

fn start_at(ends: &[u32], place: usize) -> usize
    requires { place < length ends.now }
    ensures { (rs : List (List ℕ)) → ends.now ≡ ends_from 0 rs → result ≡ start_of 0 rs place }
{
    if place == 0 {
        0
    } else {
        ends[place - 1] as usize
    }
}

/// Where the record at a place begins and ends.
fn range_at(bytes: &[u8], ends: &[u32], place: usize) -> Option<(usize, usize)>
    requires { Holds bytes.now ends.now (records_in bytes.now) }
    ensures at { IfSome result (λ r. IsAt bytes.now (records_in bytes.now) place r.1 r.0) }
    ensures none { result ≡ None → slice_get (records_in bytes.now) place ≡ None }
{
    match end_at(ends, place) {
        Some(end) => Some((start_at(ends, place), end as usize)),
        None => None,
    }
}

/// How many bytes the record at a place has in a feed, where its length is before it.
pub(crate) fn taken_at(bytes: &[u8], ends: &[u32], place: usize) -> Option<usize>
    requires { IsKept bytes.now ends.now }
    ensures { result ≡ option_map taken_by (slice_get (records_in bytes.now) place) }
{
    match range_at(bytes, ends, place) {
        Some((start, end)) => Some(4 + (end - start)),
        None => None,
    }
}

/// The record at a place.
pub(crate) fn record_at<'a>(bytes: &'a [u8], ends: &[u32], place: usize) -> Option<&'a [u8]>
    requires { Holds bytes.now ends.now (records_in bytes.now) }
    ensures at { option_map (λ r. r.now) result ≡ slice_get (records_in bytes.now) place }
    ensures within { IfSome result (λ r. length r.now ≤ length bytes.now) }
{
    match range_at(bytes, ends, place) {
        Some((start, end)) => Some(&bytes[start..end]),
        None => None,
    }
}
