// Text in UTF-8, written into a room that has space for it.

ghost use Rattle.std.specs.Prelude.{◌≡◌, ◌+◌, ◌*◌, ◌%◌, ◌≤◌, length};
ghost use Rattle.program_text.specs.Places.{Put};
ghost use Rattle.program_text.specs.Utf8.{utf8_one, utf8};

use crate::lines::put_bytes;

// The byte of a scalar's last six bits.
fn low(c: u32) -> u8
    ensures { result ≡ 0x80 + c % 64 }
{
    (c % 64 + 0x80) as u8
}

// The bytes of a scalar, written from a place on; the place behind them. By hand and not by `char`: the contract speaks of every number.
fn put_one(out: &mut [u8], at: usize, c: u32) -> usize
    requires { at + 4 ≤ length out.old }
    ensures { Put out.old at (utf8_one c) result out.new }
{
    match c {
        0..=0x7F => put_bytes(out, at, &[c as u8]),
        0x80..=0x7FF => put_bytes(out, at, &[(c / 64 + 0xC0) as u8, low(c)]),
        0x800..=0xFFFF => put_bytes(out, at, &[(c / 4096 + 0xE0) as u8, low(c / 64), low(c)]),
        0x10000..=0x10FFFF => put_bytes(
            out,
            at,
            &[
                (c / 262144 + 0xF0) as u8,
                low(c / 4096),
                low(c / 64),
                low(c),
            ],
        ),
        _ => at,
    }
}

// The bytes of some scalars, at the front of the room; how many.
pub(crate) fn put_text(out: &mut [u8], scalars: &[u32]) -> usize
    requires { 4 * length scalars.now ≤ length out.old }
    ensures { Put out.old 0 (utf8 scalars.now) result out.new }
{
    let mut at = 0;
    for c in scalars {
        at = put_one(out, at, *c);
    }
    at
}
