// UTF-16BE and UTF-16LE.

ghost use Rattle.std.specs.Prelude.{◌≡◌, List, ◌∷◌, ℕ, ◌-◌, ◌≤◌, take};
ghost use Rattle.standard.specs.Sequences.Utf16.{utf16, utf16_pair, unit};
ghost use Rattle.sequences.specs.Code.{next_of};

use crate::{Sequence, gives, wrong};

pub fn utf_16(be: bool, b0: u8, b1: u8, b2: u8, b3: u8, have: usize) -> Option<Sequence>
    ensures { (xs : List ℕ) → next_of result ≡ utf16 be (b0 ∷ take (have - 1) (b1 ∷ b2 ∷ b3 ∷ xs)) }
{
    if have < 2 {
        return None;
    }
    let u = unit(be, b0, b1);
    if u < 0xD800 {
        return gives(2, u);
    }
    if 0xDFFF < u {
        return gives(2, u);
    }
    if 0xDBFF < u {
        return wrong(2);
    }
    if have < 4 {
        return None;
    }
    pair(u, unit(be, b2, b3))
}

// A code unit; `be`: its first byte is the upper one.
pub fn unit(be: bool, b: u8, c: u8) -> u32
    ensures { result ≡ unit be b c }
{
    if be {
        return (b as u32) * 256 + (c as u32);
    }
    (c as u32) * 256 + (b as u32)
}

// A unit after a leading surrogate.
fn pair(lead: u32, u: u32) -> Option<Sequence>
    requires { (0xD800 ≤ lead) × (lead ≤ 0xDBFF) }
    ensures { next_of result ≡ utf16_pair lead u }
{
    if u < 0xDC00 {
        return wrong(2);
    }
    if u <= 0xDFFF {
        return gives(4, 0x10000 + (lead - 0xD800) * 1024 + (u - 0xDC00));
    }
    wrong(2)
}
