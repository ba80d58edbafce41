//! Lines of five fields, and of six.
ghost use Rattle.std.specs.Prelude.{◌≡◌, ◌∷◌, IfSome, drop};
ghost use Rattle.csv_records.specs.Records.{csv_records};
ghost use Rattle.plain_fields.specs.Lines.{AreFive, AreSix, IsLineStart, StandsBehindFeed};
ghost use Rattle.plain_fields.specs.Lines.{five_of, six_of};

use crate::ends::field_ends;

/// A line of five fields.
#[derive(Clone, Copy)]
pub struct LineOfFive<'a> {
    pub fields: (&'a [u8], &'a [u8], &'a [u8], &'a [u8], &'a [u8]),
    /// The place behind its line feed.
    pub end: usize,
}

/// A line of six fields.
#[derive(Clone, Copy)]
pub struct LineOfSix<'a> {
    pub fields: (&'a [u8], &'a [u8], &'a [u8], &'a [u8], &'a [u8], &'a [u8]),
    /// The place behind its line feed.
    pub end: usize,
}

/// Where the five fields of a line end.
fn five_ends(text: &[u8], from: usize) -> Option<(usize, usize, usize, usize, usize)>
    ensures { IfSome result (λ ends. AreFive text.now from ends) }
{
    let mut ends = [0; 5];
    field_ends(text, from, &mut ends)?;
    Some((ends[0], ends[1], ends[2], ends[3], ends[4]))
}

/// Where the six fields of a line end.
fn six_ends(text: &[u8], from: usize) -> Option<(usize, usize, usize, usize, usize, usize)>
    ensures { IfSome result (λ ends. AreSix text.now from ends) }
{
    let mut ends = [0; 6];
    field_ends(text, from, &mut ends)?;
    Some((ends[0], ends[1], ends[2], ends[3], ends[4], ends[5]))
}

/// The line that begins at a place behind a line feed, where it is five fields with no quote and
/// ends with a line feed. It is read in place, without the reader of any records.
pub fn read_five(text: &[u8], from: usize) -> Option<LineOfFive<'_>>
    ensures records { IfSome result (λ line. csv_records (10 ∷ drop from text.now)
        ≡ five_of line ∷ csv_records (10 ∷ drop line.end text.now)) }
    ensures behind { IfSome result (λ line. StandsBehindFeed text.now line.end) }
{
    let (first, second, third, fourth, last) = five_ends(text, from)?;
    Some(LineOfFive {
        fields: (
            &text[from..first],
            &text[first + 1..second],
            &text[second + 1..third],
            &text[third + 1..fourth],
            &text[fourth + 1..last],
        ),
        end: last + 1,
    })
}

/// The same of six fields.
pub fn read_six(text: &[u8], from: usize) -> Option<LineOfSix<'_>>
    ensures records { IfSome result (λ line. csv_records (10 ∷ drop from text.now)
        ≡ six_of line ∷ csv_records (10 ∷ drop line.end text.now)) }
    ensures start { IfSome result (λ line. IsLineStart text.now line.end) }
{
    let (first, second, third, fourth, fifth, last) = six_ends(text, from)?;
    Some(LineOfSix {
        fields: (
            &text[from..first],
            &text[first + 1..second],
            &text[second + 1..third],
            &text[third + 1..fourth],
            &text[fourth + 1..fifth],
            &text[fifth + 1..last],
        ),
        end: last + 1,
    })
}
