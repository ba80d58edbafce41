//! What is remembered of each minute, over the bytes alone.
ghost use Rattle.std.specs.Prelude.{◌≡◌, ℕ, ◌+◌, ◌*◌, ◌/◌, ◌<◌, ◌≤◌, ◌==◌, ◌&&◌, nat_le, nat_lt};
ghost use Rattle.std.specs.Prelude.{length, max, slice_index, vec_capacity, Some};
ghost use Rattle.std.specs.Prelude.{if◌then◌else◌};
ghost use Rattle.std.specs.List.{prefix_len};
ghost use Rattle.slo_limits.specs.declared.TheConstants.{RANGE_MINUTES};
ghost use Rattle.alert_line.specs.Minutes.{Forgets, byte_of, kept_at, verdict_of};

use crate::bits::{bits_at, with_bits};

/// What is kept at a place: nothing behind the last byte.
pub(crate) fn kept_at(bytes: &[u8], slot: usize) -> Option<bool>
    ensures { result ≡ kept_at bytes.now slot }
{
    let beyond = bytes.len() <= slot / 4;
    if beyond {
        return None;
    }
    let bits = bits_at(bytes[slot / 4], slot % 4);
    if bits == 0 { None } else { Some(bits == 2) }
}

/// A byte whose four places all keep this.
fn byte_of(holds: bool) -> u8
    ensures { result ≡ byte_of holds }
{
    if holds { 0xAA } else { 0x55 }
}

/// How many bytes from the front on are this one.
fn count_alike(bytes: &[u8], byte: u8) -> usize
    ensures value { result ≡ prefix_len (λ other. other == byte) bytes.now }
    ensures within { result ≤ length bytes.now }
{
    bytes.iter().take_while(|other| **other == byte).count()
}

/// For how many places from one on, up to another, the same is kept, as far as whole bytes tell it.
pub(crate) fn alike_from(bytes: &[u8], from: usize, to: usize, holds: bool) -> usize
    requires order { from ≤ to }
    requires within { to ≤ 4 * length bytes.now }
    ensures within { from + result ≤ to }
    ensures kept { (slot : ℕ) → from ≤ slot → slot < from + result
        → kept_at bytes.now slot ≡ Some holds }
{
    let first = from / 4;
    let end = to / 4;
    let cut = 4 * first < from;
    if cut {
        return 0;
    }
    let short = end <= first;
    if short {
        return 0;
    }
    let alike = count_alike(&bytes[first..end], byte_of(holds));
    4 * alike
}

fn put_bits(bytes: &mut [u8], slot: usize, bits: u8)
    requires within { slot < 4 * length bytes.old }
    requires bits { bits < 4 }
    ensures here { (k : ℕ) → kept_at bytes.new k
        ≡ (if k == slot then verdict_of bits else kept_at bytes.old k) }
    ensures len { length bytes.new ≡ length bytes.old }
{
    bytes[slot / 4] = with_bits(bytes[slot / 4], slot % 4, bits);
}

/// Bytes that keep nothing, up to so many in all, for which there is room. Not inlined: it is
/// called for every fourth minute that is learnt, at most.
#[inline(never)]
fn lengthen(bytes: &mut Vec<u8>, count: usize)
    requires more { length bytes.old.items ≤ count }
    requires room { count ≤ vec_capacity bytes.old }
    ensures kept { (slot : ℕ) → kept_at bytes.new.items slot ≡ kept_at bytes.old.items slot }
    ensures len { length bytes.new.items ≡ count }
    ensures room { vec_capacity bytes.old ≤ vec_capacity bytes.new }
{
    bytes.resize(count, 0).unwrap();
}

/// Lengthens the bytes where there is none at a place yet.
fn reach(bytes: &mut Vec<u8>, at: usize)
    requires { at < vec_capacity bytes.old }
    ensures kept { (slot : ℕ) → kept_at bytes.new.items slot ≡ kept_at bytes.old.items slot }
    ensures there { at < length bytes.new.items }
    ensures within { length bytes.new.items ≤ max (length bytes.old.items) (at + 1) }
    ensures room { vec_capacity bytes.old ≤ vec_capacity bytes.new }
{
    let there = at < bytes.len();
    if there {
        return;
    }
    lengthen(bytes, at + 1);
}

fn put_in(bytes: &mut Vec<u8>, slot: usize, bits: u8)
    requires within { slot < 4 * length bytes.old.items }
    requires bits { bits < 4 }
    ensures here { (k : ℕ) → kept_at bytes.new.items k
        ≡ (if k == slot then verdict_of bits else kept_at bytes.old.items k) }
    ensures len { length bytes.new.items ≡ length bytes.old.items }
    ensures room { vec_capacity bytes.new ≡ vec_capacity bytes.old }
{
    put_bits(bytes, slot, bits);
}

/// The two bits that stand for what is known.
fn bits_of(holds: bool) -> u8
    ensures few { result < 4 }
    ensures value { verdict_of result ≡ Some holds }
{
    if holds { 2 } else { 1 }
}

pub(crate) fn keep(bytes: &mut Vec<u8>, slot: usize, holds: bool)
    requires { slot < 4 * vec_capacity bytes.old }
    ensures here { (k : ℕ) → kept_at bytes.new.items k
        ≡ (if k == slot then Some holds else kept_at bytes.old.items k) }
    ensures within { length bytes.new.items ≤ max (length bytes.old.items) (slot / 4 + 1) }
    ensures room { vec_capacity bytes.old ≤ vec_capacity bytes.new }
{
    reach(bytes, slot / 4);
    put_in(bytes, slot, bits_of(holds));
}

fn forget_singly(bytes: &mut [u8], from: usize, to: usize)
    requires order { from ≤ to }
    requires within { to ≤ 4 * length bytes.old }
    ensures value { Forgets bytes.old bytes.new from to }
    ensures len { length bytes.new ≡ length bytes.old }
{
    for slot in from..to {
        put_bits(bytes, slot, 0);
    }
}

fn clear(bytes: &mut [u8], first: usize, end: usize)
    requires order { first ≤ end }
    requires within { end ≤ length bytes.old }
    ensures value { (at : ℕ) → slice_index bytes.new at
        ≡ (if nat_le first at && nat_lt at end then 0 else slice_index bytes.old at) }
    ensures len { length bytes.new ≡ length bytes.old }
{
    let part = &mut bytes[first..end];
    part.fill(0);
}

/// Whole bytes at once, and what is left at both ends singly.
fn forget(bytes: &mut [u8], from: usize, to: usize)
    requires order { from ≤ to }
    requires within { to ≤ 4 * length bytes.old }
    ensures value { Forgets bytes.old bytes.new from to }
    ensures len { length bytes.new ≡ length bytes.old }
{
    let first = from.div_ceil(4);
    let end = to / 4;
    if first < end {
        forget_singly(bytes, from, 4 * first);
        clear(bytes, first, end);
        forget_singly(bytes, 4 * end, to);
    } else {
        forget_singly(bytes, from, to);
    }
}

fn forget_within(bytes: &mut Vec<u8>, from: usize, to: usize)
    requires order { from ≤ to }
    requires within { to ≤ 4 * length bytes.old.items }
    ensures value { Forgets bytes.old.items bytes.new.items from to }
    ensures len { length bytes.new.items ≡ length bytes.old.items }
    ensures room { vec_capacity bytes.new ≡ vec_capacity bytes.old }
{
    forget(bytes, from, to);
}

/// All from a place on: the bytes end there.
fn forget_end(bytes: &mut Vec<u8>, from: usize)
    requires within { from ≤ 4 * length bytes.old.items }
    requires few { 4 * length bytes.old.items ≤ RANGE_MINUTES }
    ensures value { Forgets bytes.old.items bytes.new.items from (4 * length bytes.old.items) }
    ensures fewer { length bytes.new.items ≤ length bytes.old.items }
    ensures room { vec_capacity bytes.new ≡ vec_capacity bytes.old }
{
    let end = from.div_ceil(4);
    forget_within(bytes, from, 4 * end);
    bytes.truncate(end);
}

pub(crate) fn forget_in(bytes: &mut Vec<u8>, from: usize, to: usize)
    requires order { from ≤ to }
    requires within { to ≤ 4 * length bytes.old.items }
    requires few { 4 * length bytes.old.items ≤ RANGE_MINUTES }
    ensures value { Forgets bytes.old.items bytes.new.items from to }
    ensures fewer { length bytes.new.items ≤ length bytes.old.items }
    ensures room { vec_capacity bytes.new ≡ vec_capacity bytes.old }
{
    let last = to == 4 * bytes.len();
    if last {
        forget_end(bytes, from);
        return;
    }
    forget_within(bytes, from, to);
}
