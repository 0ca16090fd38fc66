// The pointers of gb18030's four bytes.

ghost use Rattle.std.specs.Prelude.{◌≡◌, ◌||◌, ltb};
ghost use Rattle.standard.specs.Base.{within};
ghost use Rattle.layouts.specs.Fours.{four_pointer};

use crate::within;

// The pointer of four bytes; above all pointers if they have none.
// A number and not an Option: the definition has it, by which `gap` tells all pointers without a range at once.
#[tactic(auto, unfolding(crate::specs::Fours::four_pointer, standard::specs::Sequences::Gb18030::gb18030_four_pointer))]
pub fn four_pointer(b: u8, c: u8, d: u8, e: u8) -> u32
    ensures { result ≡ four_pointer b c d e }
{
    if within(0x81, b, 0xFE)
        && within(0x30, c, 0x39)
        && within(0x81, d, 0xFE)
        && within(0x30, e, 0x39)
    {
        let upper = u32::from(b - 0x81) * 12600 + u32::from(c - 0x30) * 1260;
        upper + u32::from(d - 0x81) * 10 + u32::from(e - 0x30)
    } else {
        1237576
    }
}

// Is it a pointer that no range has?
pub fn gap(p: u32) -> bool
    ensures { result ≡ within 39420 p 188999 || ltb 1237575 p }
{
    39420 <= p && p <= 188999 || 1237575 < p
}
