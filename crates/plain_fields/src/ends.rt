//! Where the fields of a line end.
ghost use Rattle.std.specs.Prelude.{◌≡◌, ◌≤◌, IfSome, length};
ghost use Rattle.plain_fields.specs.Lines.{IsLine, is_mark};

/// Whether a byte stands between fields, ends a line or opens quotes.
fn is_mark(byte: u8) -> bool
    ensures { result ≡ is_mark byte }
{
    byte == b',' || byte == b'\n' || byte == b'\r' || byte == b'"'
}

/// The place behind the line that begins at a place behind a line feed, where it is as many fields
/// as `ends` has places, with no quote, and ends with a line feed. Where each field ends is put
/// into `ends`. One pass over the bytes finds all of them.
pub(crate) fn field_ends(text: &[u8], from: usize, ends: &mut [usize]) -> Option<usize>
    requires { 2 ≤ length ends.old }
    ensures { IfSome result (λ next. IsLine text.now from next ends.new) }
{
    let mut count: usize = 0;
    for at in from..text.len() {
        let byte = text[at];
        if is_mark(byte) {
            ends[count] = at;
            count += 1;
            if count == ends.len() {
                if byte != b'\n' {
                    return None;
                }
                return Some(at + 1);
            }
            if byte != b',' {
                return None;
            }
        }
    }
    None
}
