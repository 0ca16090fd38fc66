// EUC-JP.

ghost use Rattle.std.specs.Prelude.{◌≡◌, List, ◌∷◌, ℕ, ◌-◌, ◌≤◌, take};
ghost use Rattle.standard.specs.Encodings.{lent};
ghost use Rattle.standard.specs.Sequences.EucJp.{euc_jp, euc_jp_kana, euc_jp_three};
ghost use Rattle.sequences.specs.Code.{next_of};

use crate::{Sequence, code_point, gives, gives_pair, gives_trailed, wrong};
use layouts::{leads, within};

pub fn euc_jp(t1: &[u32], t2: &[u32], b0: u8, b1: u8, b2: u8, have: usize) -> Option<Sequence>
    ensures { (xs : List ℕ) → next_of result ≡ euc_jp (lent t1.now t2.now) (b0 ∷ take (have - 1) (b1 ∷ b2 ∷ xs)) }
{
    if b0 < 0x80 {
        return gives(1, b0 as u32);
    }
    if b0 == 0x8E {
        return gives_pair(have, b1, katakana(b1));
    }
    if b0 == 0x8F {
        if have < 2 {
            return None;
        }
        return three(&*t2, b1, b2, have);
    }
    if !leads(32, b0) {
        return wrong(1);
    }
    gives_pair(have, b1, code_point(32, &*t1, b0, b1))
}

// Half-width katakana, 0 for none.
fn katakana(c: u8) -> u32
    ensures { result ≡ euc_jp_kana c }
{
    if within(0xA1, c, 0xDF) {
        return 0xFF61 - 0xA1 + (c as u32);
    }
    0
}

// After 8F: a pair of jis0212.
fn three(jis0212: &[u32], c: u8, d: u8, have: usize) -> Option<Sequence>
    requires { 2 ≤ have }
    ensures { (xs : List ℕ) → next_of result ≡ euc_jp_three jis0212.now c (take (have - 2) (d ∷ xs)) }
{
    if !leads(32, c) {
        return gives_pair(have, c, 0);
    }
    if have < 3 {
        return None;
    }
    gives_trailed(2, 3, d, code_point(32, &*jis0212, c, d))
}
