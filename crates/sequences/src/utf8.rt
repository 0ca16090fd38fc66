// UTF-8.

ghost use Rattle.std.specs.Prelude.{◌≡◌, List, ◌∷◌, ℕ, ◌-◌, ◌≤◌, take};
ghost use Rattle.standard.specs.Leads.{lead_length};
ghost use Rattle.standard.specs.Sequence.{await};
ghost use Rattle.standard.specs.Sequences.Utf8.{utf8, utf8_low, utf8_high, utf8_two, utf8_three, utf8_four};
ghost use Rattle.sequences.specs.Code.{next_of, begun};
ghost use Rattle.sequences.specs.declared.utf8.Beginning.TheVariants.{Right};

use crate::{Sequence, gives, wrong};
use layouts::within;

// The length of the sequence that a byte leads: its number of leading one bits.
// 0 where it leads none: ASCII, and 80 to BF, whose one leading bit is no length; C0, C1 and F5 to FF, which never occur.
pub fn lead_length(b: u8) -> u32
    ensures { result ≡ lead_length b }
{
    if b < 0xC2 {
        return 0;
    }
    if 0xF4 < b {
        return 0;
    }
    u8::leading_zeros(!b)
}

pub fn utf8(b0: u8, b1: u8, b2: u8, b3: u8, have: usize) -> Option<Sequence>
    ensures { (xs : List ℕ) → next_of result ≡ utf8 (b0 ∷ take (have - 1) (b1 ∷ b2 ∷ b3 ∷ xs)) }
{
    if b0 < 0x80 {
        return gives(1, b0 as u32);
    }
    let n = lead_length(b0);
    if n == 2 {
        return two(b0, b1, have);
    }
    if n == 3 {
        return three(b0, b1, b2, have);
    }
    if n == 4 {
        return four(b0, b1, b2, b3, have);
    }
    wrong(1)
}

// A lead of two.
fn two(b0: u8, b1: u8, have: usize) -> Option<Sequence>
    requires { 0xC0 ≤ b0 }
    ensures { (xs : List ℕ) → next_of result ≡ await (take (have - 1) (b1 ∷ xs)) (λ c xs. utf8_two b0 c) }
{
    if have < 2 {
        return None;
    }
    if !within(0x80, b1, 0xBF) {
        return wrong(1);
    }
    gives(2, ((b0 - 0xC0) as u32) * 64 + ((b1 - 0x80) as u32))
}

// How three or four bytes begin: right as far as the third, or not yet there, or wrong, with the width of the error.
#[derive(Clone, Copy)]
enum Beginning {
    Right,
    Short,
    Wrong(u8),
}

fn begun(b0: u8, b1: u8, b2: u8, have: usize) -> Beginning
    ensures { result ≡ begun have b0 b1 b2 }
{
    if have < 2 {
        return Beginning::Short;
    }
    if !within(low(b0), b1, high(b0)) {
        return Beginning::Wrong(1);
    }
    if have < 3 {
        return Beginning::Short;
    }
    if within(0x80, b2, 0xBF) {
        return Beginning::Right;
    }
    Beginning::Wrong(2)
}

// A lead of three.
fn three(b0: u8, b1: u8, b2: u8, have: usize) -> Option<Sequence>
    requires { 0xE0 ≤ b0 }
    ensures { (xs : List ℕ) → next_of result ≡ await (take (have - 1) (b1 ∷ b2 ∷ xs)) (λ c xs. utf8_three b0 c xs) }
{
    match begun(b0, b1, b2, have) {
        Beginning::Short => None,
        Beginning::Wrong(width) => wrong(width),
        Beginning::Right => gives(
            3,
            ((b0 - 0xE0) as u32) * 4096 + ((b1 - 0x80) as u32) * 64 + ((b2 - 0x80) as u32),
        ),
    }
}

// A lead of four.
fn four(b0: u8, b1: u8, b2: u8, b3: u8, have: usize) -> Option<Sequence>
    requires { 0xF0 ≤ b0 }
    ensures { (xs : List ℕ) → next_of result ≡ await (take (have - 1) (b1 ∷ b2 ∷ b3 ∷ xs)) (λ c xs. utf8_four b0 c xs) }
{
    match begun(b0, b1, b2, have) {
        Beginning::Short => None,
        Beginning::Wrong(width) => wrong(width),
        Beginning::Right => four_end(b0, b1, b2, b3, have),
    }
}

// The last byte of four, behind three that are right.
fn four_end(b0: u8, b1: u8, b2: u8, b3: u8, have: usize) -> Option<Sequence>
    requires { (0xF0 ≤ b0) × (begun have b0 b1 b2 ≡ Right) }
    ensures { (xs : List ℕ) → next_of result ≡ await (take (have - 1) (b1 ∷ b2 ∷ b3 ∷ xs)) (λ c xs. utf8_four b0 c xs) }
{
    if have < 4 {
        return None;
    }
    if !within(0x80, b3, 0xBF) {
        return wrong(3);
    }
    gives(
        4,
        ((b0 - 0xF0) as u32) * 262144
            + ((b1 - 0x80) as u32) * 4096
            + ((b2 - 0x80) as u32) * 64
            + ((b3 - 0x80) as u32),
    )
}

// The range of the second byte, after a lead of three or four.
pub fn low(b0: u8) -> u8
    ensures { result ≡ utf8_low b0 }
{
    if b0 == 0xE0 {
        return 0xA0;
    }
    if b0 == 0xF0 {
        return 0x90;
    }
    0x80
}

pub fn high(b0: u8) -> u8
    ensures { result ≡ utf8_high b0 }
{
    if b0 == 0xED {
        return 0x9F;
    }
    if b0 == 0xF4 {
        return 0x8F;
    }
    0xBF
}
