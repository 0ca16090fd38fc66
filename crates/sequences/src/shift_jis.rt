// Shift_JIS.

ghost use Rattle.std.specs.Prelude.{◌≡◌, true, List, [], ◌∷◌, ℕ, ◌-◌, take};
ghost use Rattle.standard.specs.Encodings.{lent};
ghost use Rattle.standard.specs.Layouts.{leads, shift_jis_layout};
ghost use Rattle.standard.specs.Sequences.ShiftJis.{shift_jis, shift_jis_code};
ghost use Rattle.sequences.specs.Code.{next_of};

use crate::{Sequence, code_point, gives, gives_pair, wrong};
use layouts::{leads, pointer, within};

// The code point of a pair, 0 for none. The user rows have private code points.
fn pair_code(table: &[u32], lead: u8, trail: u8) -> u32
    requires { leads shift_jis_layout lead ≡ true }
    ensures { result ≡ shift_jis_code table.now lead trail }
{
    let p = pointer(34, lead, trail);
    if p < 8836 {
        return code_point(34, &*table, lead, trail);
    }
    if p <= 10715 {
        return 0xE000 - 8836 + (p as u32);
    }
    code_point(34, &*table, lead, trail)
}

pub fn shift_jis(table: &[u32], b0: u8, b1: u8, have: usize) -> Option<Sequence>
    ensures { (xs : List ℕ) → next_of result ≡ shift_jis (lent table.now []) (b0 ∷ take (have - 1) (b1 ∷ xs)) }
{
    if b0 <= 0x80 {
        return gives(1, b0 as u32);
    }
    if within(0xA1, b0, 0xDF) {
        return gives(1, 0xFF61 - 0xA1 + (b0 as u32));
    }
    if !leads(34, b0) {
        return wrong(1);
    }
    gives_pair(have, b1, pair_code(&*table, b0, b1))
}
