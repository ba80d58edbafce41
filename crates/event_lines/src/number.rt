//! The numbers of a line.
ghost use Rattle.std.specs.Prelude.{◌≡◌, ◌<◌, ◌≤◌, ◌^◌, IfSome, length, true};
ghost use Rattle.std.specs.Char.{is_ascii_digit};
ghost use Rattle.exact_fraction.specs.Digits.{with_digit};
ghost use Rattle.event_lines.specs.Lines.{AreNumbersAt, EndsNumber};

/// Numbers of at most so many digits fit a machine word.
const MOST_DIGITS: usize = 18;

/// The numbers of a line, each read by itself.
#[derive(Clone, Copy)]
pub(crate) struct Numbers {
    pub(crate) minute: u64,
    pub(crate) revision: u64,
    pub(crate) good: u64,
    pub(crate) total: u64,
}

/// A number with one more digit, where it has at most 18 then. Of more digits nothing is known.
fn with_digit(value: u64, byte: u8) -> u64
    requires { is_ascii_digit byte ≡ true }
    ensures { value < 10 ^ 17 → result ≡ with_digit value byte }
{
    value.wrapping_mul(10).wrapping_add(u64::from(byte - b'0'))
}

/// Whether a byte ends a number of so many digits, before which so many numbers stand: a comma ends
/// the first three, and a line feed the last.
fn ends_number(digits: usize, count: usize, byte: u8) -> bool
    ensures { result ≡ true → EndsNumber digits count byte }
{
    let mark = if count == 3 { b'\n' } else { b',' };
    byte == mark && 0 < digits && digits <= MOST_DIGITS
}

/// The four numbers that begin at a place and end with a line feed. The place moves behind it. None
/// where another byte stands there, or a number has more than `MOST_DIGITS`. One pass over the
/// bytes; not inlined, or its loop would count other places too.
#[inline(never)]
pub(crate) fn read_numbers(text: &[u8], at: &mut usize) -> Option<Numbers>
    requires { at.old ≤ length text.now }
    ensures { IfSome result (AreNumbersAt text.now at.old at.new) }
{
    let mut numbers = [0u64; 4];
    let mut count: usize = 0;
    let mut begin = *at;
    let mut value: u64 = 0;
    for place in *at..text.len() {
        let byte = text[place];
        if byte.is_ascii_digit() {
            value = with_digit(value, byte);
            continue;
        }
        if !ends_number(place - begin, count, byte) {
            return None;
        }
        numbers[count] = value;
        count += 1;
        begin = place + 1;
        if count == 4 {
            *at = begin;
            let [minute, revision, good, total] = numbers;
            return Some(Numbers {
                minute,
                revision,
                good,
                total,
            });
        }
        value = 0;
    }
    None
}
