// The encodings of one byte a scalar: single-byte and x-user-defined. In html mode an unwritable scalar is a reference.

ghost use Rattle.std.specs.Prelude.{◌≡◌, true, ◌≤◌, length};
ghost use Rattle.standard.specs.Base.{scalars as are_scalars};
ghost use Rattle.reverse_index_spec.specs.ReverseIndex.{look_up};
ghost use Rattle.encoder.specs.WriterCode.{given, encoder_of, OneByte, BySlots, writing_of, Space, Wrote};

use crate::{references, slots};
use encoder_spec::Written;

// The byte of a scalar; none where it is unwritable.
pub(crate) fn byte_of(encoding: u8, table: &[u32], links: &[u32], c: u32) -> Option<u8>
    requires { OneByte encoding table.now }
    ensures { given c result ≡ encoder_of encoding (look_up table.now links.now) c }
{
    match encoding {
        21 => crate::single_byte::windows_1252(c),
        0..=28 => crate::single_byte::byte_of(table, links, c),
        _ => crate::user_defined::byte_of(c),
    }
}

// How many bytes are written of the scalars, with slots.
fn count_by(
    encoding: u8,
    mode: u8,
    scalars: &[u32],
    table: &[u32],
    links: &[u32],
    slots: &[u32],
) -> usize
    requires { BySlots encoding table.now links.now slots.now × (are_scalars scalars.now ≡ true) × (length scalars.now ≤ 16384) }
    ensures { result ≡ length (writing_of (look_up table.now links.now) encoding mode scalars.now).bytes }
{
    let mut n: usize = 0;
    for c in scalars {
        match slots::byte_of(encoding, table, links, slots, *c) {
            Some(_) => n += 1,
            None if mode == 1 => return n,
            None => n += references::size(*c),
        }
    }
    n
}

// The same, with slots where they save time.
pub(crate) fn count(encoding: u8, mode: u8, scalars: &[u32], table: &[u32], links: &[u32]) -> usize
    requires { OneByte encoding table.now × (are_scalars scalars.now ≡ true) × (length scalars.now ≤ 16384) }
    ensures { result ≡ length (writing_of (look_up table.now links.now) encoding mode scalars.now).bytes }
{
    if scalars.len() < slots::least(encoding, links) {
        return count_by(encoding, mode, scalars, table, links, &table[0..0]);
    }
    let mut filled = [0u32; 2048];
    slots::fill(encoding, table, links, &mut filled);
    count_by(encoding, mode, scalars, table, links, &filled)
}

// The scalars written into a room that has space for all their bytes, with slots.
fn write_by(
    encoding: u8,
    mode: u8,
    scalars: &[u32],
    table: &[u32],
    links: &[u32],
    slots: &[u32],
    room: &mut [u8],
) -> Written
    requires { BySlots encoding table.now links.now slots.now
        × Space (writing_of (look_up table.now links.now) encoding mode scalars.now) room.old }
    ensures { Wrote (writing_of (look_up table.now links.now)
        encoding mode scalars.now) room.old result room.new }
{
    let mut o: usize = 0;
    for (i, c) in scalars.iter().enumerate() {
        match slots::byte_of(encoding, table, links, slots, *c) {
            Some(b) => {
                room[o] = b;
                o += 1;
            }
            None if mode == 1 => {
                return Written {
                    written: o,
                    index: i,
                    refusal: 11,
                    state: 0,
                };
            }
            None => o = references::put(room, o, *c),
        }
    }
    Written {
        written: o,
        index: 0,
        refusal: 0,
        state: 0,
    }
}

// The same, with slots where they save time.
pub(crate) fn write(
    encoding: u8,
    mode: u8,
    scalars: &[u32],
    table: &[u32],
    links: &[u32],
    room: &mut [u8],
) -> Written
    requires { OneByte encoding table.now × Space (writing_of (look_up table.now links.now) encoding mode scalars.now) room.old }
    ensures { Wrote (writing_of (look_up table.now links.now)
        encoding mode scalars.now) room.old result room.new }
{
    if scalars.len() < slots::least(encoding, links) {
        return write_by(encoding, mode, scalars, table, links, &table[0..0], room);
    }
    let mut filled = [0u32; 2048];
    slots::fill(encoding, table, links, &mut filled);
    write_by(encoding, mode, scalars, table, links, &filled, room)
}
