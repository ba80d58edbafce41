//! Labels of sources, which come again and again.
ghost use Rattle.std.specs.Prelude.{◌≡◌, ◌<◌};
ghost use Rattle.exact_fraction.specs.Label.{label_of};

use exact_fraction::{Label, read_label};

/// How many labels are remembered.
const PLACES: usize = 64;

/// The labels that were read last, each at the place of its text. A text that is one of them is
/// compared with it alone, and isn't judged byte by byte again. Nothing rests on them.
#[derive(Drop)]
pub struct Sources {
    latest: [Label; PLACES],
}

impl Sources {
    /// No source was read. The places hold a label that is there.
    pub fn new() -> Sources {
        Sources {
            latest: [read_label(b"source").unwrap(); PLACES],
        }
    }

    /// Reads a label: none exactly where the text is none.
    pub fn read(&mut self, text: &[u8]) -> Option<Label>
        ensures { result ≡ label_of text.now }
    {
        let place = place_of(text);
        let latest = self.latest[place];
        if latest.as_bytes() == text {
            return Some(latest);
        }
        let label = read_label(text)?;
        self.latest[place] = label;
        Some(label)
    }
}

/// Texts of a few sources mostly differ in their length, or in their first or last byte.
fn place_of(text: &[u8]) -> usize
    ensures { result < PLACES }
{
    let first = text.first().copied().unwrap_or(0);
    let last = text.last().copied().unwrap_or(0);
    (text.len() % PLACES + first as usize + 7 * last as usize) % PLACES
}
