// What programs share: the first line and its label, numbers and lines, text in UTF-8. Where a room is too small nothing is written.
#![tactic(auto)]

mod lines;
pub mod refill;
mod utf8;

ghost use Rattle.std.specs.Prelude.{◌≡◌, ◌↔◌, ◌+◌, ◌*◌, ◌≤◌, ◌==◌, IsTrue, length, take, position};
ghost use Rattle.labels_spec.specs.Labels.{label};
ghost use Rattle.program_text.specs.Lines.{first_line, after_line, label_refusal, digits, count, line};
ghost use Rattle.program_text.specs.Places.{Puts};
ghost use Rattle.program_text.specs.Utf8.{utf8};

use labels_spec::Found;

// The most bytes of a first line that may be a label.
const LONGEST: usize = 255;

// Where the first line feed stands.
fn line_feed(input: &[u8]) -> Option<usize>
    ensures { result ≡ position (λ b. b == 0x0A) input.now }
{
    input.iter().position(|b| *b == b'\n')
}

// How many bytes the first line has, without its line feed.
pub fn first_line(input: &[u8]) -> usize
    ensures { (result ≡ length (first_line input.now)) × (result ≤ length input.now) ×
        (take result input.now ≡ first_line input.now) }
{
    line_feed(input).unwrap_or(input.len())
}

// What the label call answers for the first line; one of more than 255 bytes is refused with 1.
pub fn first_label(input: &[u8]) -> Found
    ensures { (result.encoding ≡ (label (first_line input.now)).encoding) × (result.refusal ≡ label_refusal input.now) }
{
    let n = first_line(input);
    let found = labels::find_label(&input[..n]);
    if n > LONGEST {
        Found {
            refusal: 1,
            ..found
        }
    } else {
        found
    }
}

// The bytes behind the first line.
pub fn after_line(input: &[u8]) -> &[u8]
    ensures { result.now ≡ after_line input.now }
{
    match line_feed(input) {
        Some(end) => &input[end + 1..],
        None => &[],
    }
}

// Has a room of so many bytes `need` of them from a place on?
fn fits(size: usize, at: usize, need: usize) -> bool
    ensures { IsTrue result ↔ (at + need ≤ size) }
{
    at.checked_add(need).is_some_and(|end| end <= size)
}

// A count in decimal, written from a place on where there are 20 bytes; the place behind it.
pub fn put_count(out: &mut [u8], at: usize, n: u64) -> usize
    ensures { Puts out.old at 20 (count n) result out.new }
{
    if fits(out.len(), at, 20) {
        lines::put_count(out, at, n)
    } else {
        at
    }
}

// At least four hexadecimal digits, in capitals, where there are eight bytes; the place behind them.
pub fn put_hexadecimal(out: &mut [u8], at: usize, c: u32) -> usize
    ensures { Puts out.old at 8 (digits 16 8 4 c) result out.new }
{
    if fits(out.len(), at, 8) {
        lines::put_hexadecimal(out, at, c)
    } else {
        at
    }
}

// Bytes, written from a place on; the place behind them.
pub fn put_bytes(out: &mut [u8], at: usize, bytes: &[u8]) -> usize
    ensures { Puts out.old at (length bytes.now) bytes.now result out.new }
{
    if fits(out.len(), at, bytes.len()) {
        lines::put_bytes(out, at, bytes)
    } else {
        at
    }
}

// The line of a word and a number, where there are 22 bytes more than the word has; the place behind it.
pub fn put_number(out: &mut [u8], at: usize, word: &[u8], n: u64) -> usize
    ensures { Puts out.old at (length word.now + 22) (line word.now (count n)) result out.new }
{
    if fits(out.len(), at, word.len() + 22) {
        lines::put_number(out, at, word, n)
    } else {
        at
    }
}

// Text in UTF-8, at the front of a room of four bytes for each scalar; how many bytes.
pub fn put_text(out: &mut [u8], scalars: &[u32]) -> usize
    ensures { Puts out.old 0 (4 * length scalars.now) (utf8 scalars.now) result out.new }
{
    if fits(out.len(), 0, 4 * scalars.len()) {
        utf8::put_text(out, scalars)
    } else {
        0
    }
}
