// ISO-2022-JP.

ghost use Rattle.std.specs.Prelude.{◌≡◌, false, ◌||◌, List, ◌∷◌, ℕ, ◌-◌, ◌<◌, leb, eqb, take, MatchOption};
ghost use Rattle.standard.specs.Base.{◌then◌else◌};
ghost use Rattle.standard.specs.Encodings.{lent};
ghost use Rattle.standard.specs.Sequence.{item, shift};
ghost use Rattle.standard.specs.Sequences.Iso2022Jp.{iso2022_jp, escaped, escape_end, escape_next, byte_out, katakana_out, trail_next};
ghost use Rattle.sequences.specs.Code.{next_of};

use crate::{Sequence, code_point, fails, says, says_nothing};
use layouts::{leads, within};

pub fn iso_2022_jp(
    t1: &[u32],
    state: u8,
    flag: u8,
    b0: u8,
    b1: u8,
    b2: u8,
    have: usize,
) -> Option<Sequence>
    ensures { (second xs : List ℕ) → next_of result ≡ iso2022_jp (lent t1.now second) (shift state (eqb flag 1)) (b0 ∷ take (have - 1) (b1 ∷ b2 ∷ xs)) }
{
    if b0 == 0x1B {
        if have < 2 {
            return None;
        }
        return escape(state, flag, b1, b2, have);
    }
    if state != 3 {
        return byte(state, b0);
    }
    if !leads(33, b0) {
        return fails(1, 3, false);
    }
    if have < 2 {
        return None;
    }
    trail(&*t1, b0, b1)
}

// After an escape byte.
fn escape(state: u8, flag: u8, c: u8, d: u8, have: usize) -> Option<Sequence>
    ensures { (xs : List ℕ) → next_of result ≡ escape_next (shift state (eqb flag 1)) c (take (have - 2) (d ∷ xs)) }
{
    if escapes(c) {
        if have < 3 {
            return None;
        }
        return escape_end(state, flag, c, d);
    }
    fails(1, state, false)
}

fn escapes(c: u8) -> bool
    ensures { result ≡ eqb c 0x24 || eqb c 0x28 }
{
    c == 0x24 || c == 0x28
}

// The end of an escape: it chooses the output state, or is no escape.
fn escape_end(state: u8, flag: u8, c: u8, d: u8) -> Option<Sequence>
    ensures { next_of result ≡ escape_end (shift state (eqb flag 1)) c d }
{
    let Some(chosen) = escaped(c, d) else {
        return fails(1, state, false);
    };
    if flag == 1 {
        return fails(3, chosen, true);
    }
    says_nothing(3, chosen, true)
}

// The output state that an escape chooses.
fn escaped(c: u8, d: u8) -> Option<u8>
    ensures { MatchOption result (escaped c d ≡ 4) (λ s. (escaped c d ≡ s) × (s < 4)) }
{
    match (c, d) {
        (0x28, 0x42) => Some(0),
        (0x28, 0x4A) => Some(1),
        (0x28, 0x49) => Some(2),
        (0x24, 0x40) => Some(3),
        (0x24, 0x42) => Some(3),
        _ => None,
    }
}

// A byte in the output states 0 to 2.
fn byte(state: u8, b: u8) -> Option<Sequence>
    ensures { next_of result ≡ item 1 (shift state false) (byte_out state b) }
{
    if state == 2 {
        return katakana(b);
    }
    if no_character(b) {
        return fails(1, state, false);
    }
    if state == 1 {
        return says(1, 1, false, roman(b));
    }
    says(1, state, false, b as u32)
}

fn katakana(b: u8) -> Option<Sequence>
    ensures { next_of result ≡ item 1 (shift 2 false) (katakana_out b) }
{
    if within(0x21, b, 0x5F) {
        return says(1, 2, false, 0xFF61 - 0x21 + (b as u32));
    }
    fails(1, 2, false)
}

fn no_character(b: u8) -> bool
    ensures { result ≡ leb 0x80 b || eqb b 0x0E || eqb b 0x0F }
{
    0x80 <= b || b == 0x0E || b == 0x0F
}

fn roman(b: u8) -> u32
    ensures { result ≡ (eqb b 0x5C then 0xA5 else eqb b 0x7E then 0x203E else b) }
{
    match b {
        0x5C => 0xA5,
        0x7E => 0x203E,
        _ => b as u32,
    }
}

// A trail byte: an escape byte is put back.
fn trail(jis0208: &[u32], b: u8, c: u8) -> Option<Sequence>
    ensures { next_of result ≡ trail_next jis0208.now b c }
{
    if c == 0x1B {
        return fails(1, 3, false);
    }
    let u = code_point(33, &*jis0208, b, c);
    if u == 0 {
        return fails(2, 3, false);
    }
    says(2, 3, false, u)
}
