// Numbers and lines, written into a room that has space for them.

ghost use Rattle.std.specs.Prelude.{◌≡◌, ◌+◌, ◌≤◌, ◌<◌, length};
ghost use Rattle.program_text.specs.Lines.{digit, digits, count, line};
ghost use Rattle.program_text.specs.Places.{Put};

// The digit of a number below 16, in capitals.
fn digit(d: u32) -> u8
    requires { d < 16 }
    ensures { result ≡ digit d }
{
    let d = d as u8;
    if d < 10 { b'0' + d } else { b'A' + (d - 10) }
}

// A number in a base, of at most MOST digits and at least `least`, written from a place on; the place behind it. The digits are made from
// the last to the first. The base is a const parameter: a division by a variable is slow.
fn put_digits<const BASE: u64, const MOST: usize>(
    out: &mut [u8],
    at: usize,
    least: usize,
    n: u64,
) -> usize
    requires small { (0 < BASE) × (BASE ≤ 16) × (MOST ≤ 20) }
    requires fits { at + length (digits BASE MOST least n) ≤ length out.old }
    ensures { Put out.old at (digits BASE MOST least n) result out.new }
{
    let mut text = [0; MOST];
    let mut start = MOST;
    let mut owed = least;
    let mut left = n;
    while start > 0 && (owed > 0 || left > 0) {
        start -= 1;
        text[start] = digit((left % BASE) as u32);
        left /= BASE;
        owed = owed.saturating_sub(1);
    }
    let text = &text[..];
    put_bytes(out, at, &text[start..])
}

// A count in decimal.
pub(crate) fn put_count(out: &mut [u8], at: usize, n: u64) -> usize
    requires { at + length (count n) ≤ length out.old }
    ensures { Put out.old at (count n) result out.new }
{
    put_digits::<10, 20>(out, at, 1, n)
}

// A code point's hexadecimal digits; four for most, and those at once.
pub(crate) fn put_hexadecimal(out: &mut [u8], at: usize, c: u32) -> usize
    requires { at + 8 ≤ length out.old }
    ensures { Put out.old at (digits 16 8 4 c) result out.new }
{
    if c >= 0x10000 {
        return put_digits::<16, 8>(out, at, 4, u64::from(c));
    }
    let four = [
        digit(c / 0x1000),
        digit(c / 0x100 % 16),
        digit(c / 0x10 % 16),
        digit(c % 16),
    ];
    put_bytes(out, at, &four)
}

// Bytes, written from a place on; the place behind them.
#[inline]
pub(crate) fn put_bytes(out: &mut [u8], at: usize, bytes: &[u8]) -> usize
    requires { at + length bytes.now ≤ length out.old }
    ensures { Put out.old at bytes.now result out.new }
{
    let end = at + bytes.len();
    out[at..end].copy_from_slice(bytes);
    end
}

// The line of a word and a number; the place behind it.
pub(crate) fn put_number(out: &mut [u8], at: usize, word: &[u8], n: u64) -> usize
    requires { at + length word.now + 22 ≤ length out.old }
    ensures { Put out.old at (line word.now (count n)) result out.new }
{
    let tab = put_bytes(out, at, word);
    let number = put_bytes(out, tab, b"\t");
    let end = put_count(out, number, n);
    put_bytes(out, end, b"\n")
}
