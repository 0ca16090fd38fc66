// UTF-8: document 01, "Writing rules".

ghost use Rattle.std.specs.Prelude.{◌≡◌, true, ◌+◌, ◌%◌, ◌≤◌, length};
ghost use Rattle.std.proofs.Math.Option.{none};
ghost use Rattle.std.proofs.lemmas.List.Edits.{sets};
ghost use Rattle.standard.specs.Base.{scalars as are_scalars};
ghost use Rattle.standard.specs.Encoders.Utf8.{utf8_encode};
ghost use Rattle.encoder_spec.specs.Writing.{writing};
ghost use Rattle.encoder_spec.specs.Writer.{answer_of};
ghost use Rattle.encoder.specs.WriterCode.{utf8_of, plain, Space, Wrote};

use crate::room;

// How many bytes a scalar has. A sum, with no branch that depends on the text.
pub(crate) fn size(c: u32) -> u32
    ensures { (result ≡ length (utf8_of c)) × (result ≤ 4) }
{
    1 + u32::from(0x80 <= c) + u32::from(0x800 <= c) + u32::from(0x10000 <= c)
}

fn low(c: u32) -> u8
    ensures { result ≡ 0x80 + c % 64 }
{
    (c % 64 + 0x80) as u8
}

// The bytes of a scalar, written from a place on; the place behind them.
pub(crate) fn put(room: &mut [u8], at: usize, c: u32) -> usize
    requires { (at + length (utf8_of c) ≤ length room.old) × (c ≤ 0x10FFFF) }
    ensures { (result ≡ at + length (utf8_of c)) × (room.new ≡ sets room.old at (utf8_of c)) }
{
    if c < 0x80 {
        return room::put(room, at, [c as u8]);
    }
    let last = low(c);
    if c <= 0x7FF {
        return room::put(room, at, [(c / 64 + 0xC0) as u8, last]);
    }
    let third = low(c / 64);
    if c <= 0xFFFF {
        return room::put(room, at, [(c / 4096 + 0xE0) as u8, third, last]);
    }
    room::put(
        room,
        at,
        [(c / 262144 + 0xF0) as u8, low(c / 4096), third, last],
    )
}

// How many bytes the scalars have.
pub(crate) fn count(scalars: &[u32]) -> usize
    requires { length scalars.now ≤ 16384 }
    ensures { result ≡ length (writing (plain utf8_encode) 0 0 scalars.now).bytes }
{
    let mut n: u32 = 0;
    for c in scalars {
        n += size(*c);
    }
    n as usize
}

// The scalars written into a room that has space for all their bytes; how many bytes.
pub(crate) fn write(scalars: &[u32], room: &mut [u8]) -> usize
    requires { (are_scalars scalars.now ≡ true) × Space (writing (plain utf8_encode) 0 0 scalars.now) room.old }
    ensures { Wrote (writing (plain utf8_encode) 0 0 scalars.now) room.old (answer_of result 0 none) room.new }
{
    let mut o: usize = 0;
    for c in scalars {
        o = put(room, o, *c);
    }
    o
}
