//! Names of labels and zones: which texts are names, and their order; and texts and bytes.

ghost use Rattle.std.specs.Prelude.{◌≡◌, ◌↔◌, IsTrue};

use crate::expectations::{expect, expect_bytes};
use exact_fraction::{Bytes, Label, Text, read_label, read_zone_name};
use std::cmp::Ordering;
use std::collections::HashSet;

const LONGEST: &str = "aaaaaaaaaaaaaaaaaaaaaaaaaaaaaaaaaaaaaaaaaaaaaaaaaaaaaaaaaaaaaaa";

const LONGEST_OTHER: &str = "aaaaaaaaaaaaaaaaaaaaaaaaaaaaaaaaaaaaaaaaaaaaaaaaaaaaaaaaaaaaaab";

const TOO_LONG: &str = "aaaaaaaaaaaaaaaaaaaaaaaaaaaaaaaaaaaaaaaaaaaaaaaaaaaaaaaaaaaaaaaa";

/// `==` of labels is equality of their bytes.
fn same(a: &Label, b: &Label) -> bool
    ensures { IsTrue result ↔ a.now ≡ b.now }
{
    a == b
}

/// Texts, whether they are labels, and whether they are names of zones.
const NAMES: [(&str, bool, bool); 9] = [
    ("a", true, true),
    ("Shop-1.eu_west", true, true),
    (LONGEST, true, true),
    (TOO_LONG, false, false),
    ("", false, false),
    ("a b", false, false),
    ("America/New_York", false, true),
    ("Etc/GMT+5", false, true),
    ("caf\u{e9}", false, false),
];

#[test]
fn names_are_read(rt: HostRuntime) {
    for (text, is_label, is_zone) in &NAMES {
        let bytes = text.as_bytes();
        expect(&rt, read_label(bytes).is_some() == *is_label, text);
        expect(&rt, read_zone_name(bytes).is_some() == *is_zone, text);
    }
}

#[test]
fn a_zone_name_is_shown_as_its_text(rt: HostRuntime) {
    let zone = read_zone_name(b"Europe/Rome").expect(&rt, "a zone");
    let shown = format!(in rt.alloc(); "{zone}").expect(&rt, "memory");
    expect_bytes(&rt, shown.as_bytes(), b"Europe/Rome");
}

/// Pairs of labels, with their order.
const PAIRS: [(&str, &str, Ordering); 8] = [
    ("a", "a", Ordering::Equal),
    ("a", "b", Ordering::Less),
    ("a", "ab", Ordering::Less),
    ("abcdefgh", "abcdefg", Ordering::Greater),
    ("abcdefgha", "abcdefgh.", Ordering::Greater),
    ("Z", "a", Ordering::Less),
    (LONGEST, LONGEST_OTHER, Ordering::Less),
    (LONGEST, LONGEST, Ordering::Equal),
];

/// Whether two labels have their bytes, and stand in this order.
fn are_in_order(first: &str, second: &str, order: Ordering) -> bool {
    match (read_label(first.as_bytes()), read_label(second.as_bytes())) {
        (Some(a), Some(b)) => {
            let are_same = order == Ordering::Equal;
            a.as_bytes() == first.as_bytes() && a.cmp(&b) == order && same(&a, &b) == are_same
        }
        _ => false,
    }
}

#[test]
fn labels_are_compared_by_their_bytes(rt: HostRuntime) {
    for (first, second, order) in &PAIRS {
        expect(&rt, are_in_order(first, second, *order), first);
    }
}

#[test]
fn labels_are_found_by_their_bytes(rt: HostRuntime) {
    let mut known = HashSet::new(rt.alloc());
    for (first, _, _) in &PAIRS {
        let label = read_label(first.as_bytes()).expect(&rt, "a label");
        let _ = known.insert(label).expect(&rt, "memory");
        expect(&rt, known.contains(&label), first);
    }
    let absent = read_label(LONGEST_OTHER.as_bytes()).expect(&rt, "a label");
    expect(&rt, !known.contains(&absent), LONGEST_OTHER);
}

#[test]
fn texts_keep_their_memory(rt: HostRuntime) {
    let string = String::from_str(rt.alloc(), "caf\u{e9}").expect(&rt, "memory");
    let text = Text::from_string(string);
    expect_bytes(&rt, text.as_bytes(), text.as_str().as_bytes());
    expect_bytes(&rt, text.into_string().as_bytes(), "caf\u{e9}".as_bytes());
    expect_bytes(&rt, Text::new(rt.alloc()).as_bytes(), b"");
}

#[test]
fn bytes_keep_their_memory(rt: HostRuntime) {
    let bytes = Bytes::from_vec([0u8, 255].to_vec(rt.alloc()).expect(&rt, "memory"));
    expect_bytes(&rt, bytes.as_bytes(), &[0, 255]);
    expect_bytes(&rt, &bytes.into_vec(), &[0, 255]);
    expect_bytes(&rt, Bytes::new(rt.alloc()).as_bytes(), b"");
}
