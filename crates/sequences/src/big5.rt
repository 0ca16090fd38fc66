// Big5.

ghost use Rattle.std.specs.Prelude.{◌≡◌, true, List, [], ◌∷◌, ℕ, ◌-◌, ◌<◌, take};
ghost use Rattle.standard.specs.Encodings.{lent};
ghost use Rattle.standard.specs.Layouts.{leads, big5_layout};
ghost use Rattle.standard.specs.Sequences.Big5.{big5, big5_trail};
ghost use Rattle.sequences.specs.Code.{next_of, pairs, two_in};

use crate::{Out, PLAIN, Sequence, code_point, gives, gives_trailed, wrong};
use layouts::{leads, pointer};

// Four pointers that give two scalars: pointer, first scalar, second scalar.
const PAIRS: [[u32; 3]; 4] = [
    [1133, 0x00CA, 0x0304],
    [1135, 0x00CA, 0x030C],
    [1164, 0x00EA, 0x0304],
    [1166, 0x00EA, 0x030C],
];

pub fn big5(table: &[u32], b0: u8, b1: u8, have: usize) -> Option<Sequence>
    ensures { (xs : List ℕ) → next_of result ≡ big5 (lent table.now []) (b0 ∷ take (have - 1) (b1 ∷ xs)) }
{
    if b0 < 0x80 {
        return gives(1, b0 as u32);
    }
    if !leads(31, b0) {
        return wrong(1);
    }
    if have < 2 {
        return None;
    }
    pair(&*table, b0, b1)
}

// A lead and a trail byte.
fn pair(table: &[u32], lead: u8, trail: u8) -> Option<Sequence>
    requires { leads big5_layout lead ≡ true }
    ensures { next_of result ≡ big5_trail table.now lead trail }
{
    if let Some(out) = two(pointer(31, lead, trail)) {
        return Some(Sequence {
            width: 2,
            shift: PLAIN,
            out,
        });
    }
    gives_trailed(1, 2, trail, code_point(31, &*table, lead, trail))
}

// The two scalars of a pointer, where it gives two.
fn two(p: usize) -> Option<Out>
    ensures { result ≡ two_in pairs p }
{
    for [pointer, first, second] in PAIRS {
        if p == pointer as usize {
            return Some(Out::Two(first, second));
        }
    }
    None
}
