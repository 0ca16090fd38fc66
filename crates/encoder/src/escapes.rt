// The escape sequences of ISO-2022-JP: the way from one state to another.

ghost use Rattle.std.specs.Prelude.{◌≡◌, ◌+◌, ◌≤◌, length};
ghost use Rattle.std.proofs.lemmas.List.Edits.{sets};
ghost use Rattle.standard.specs.Ones.{shift_to};
ghost use Rattle.encoder.specs.WriterCode.{middle_of, last_of};

use crate::room;

// How many bytes it has.
pub(crate) fn size(from: u8, to: u8) -> usize
    ensures { (result ≡ length (shift_to from to)) × (result ≤ 3) }
{
    if from == to { 0 } else { 3 }
}

// Its second and third byte.
fn middle(to: u8) -> u8
    ensures { result ≡ middle_of to }
{
    if to < 2 { 0x28 } else { 0x24 }
}

fn last(to: u8) -> u8
    ensures { result ≡ last_of to }
{
    if to == 1 { 0x4A } else { 0x42 }
}

// Written from a place on; the place behind it.
pub(crate) fn put(room: &mut [u8], at: usize, from: u8, to: u8) -> usize
    requires { at + length (shift_to from to) ≤ length room.old }
    ensures { (result ≡ at + length (shift_to from to)) × (room.new ≡ sets room.old at (shift_to from to)) }
{
    if from == to {
        return at;
    }
    room::put(room, at, [0x1B, middle(to), last(to)])
}
