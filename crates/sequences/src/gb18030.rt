// gb18030, and GBK, which is decoded the same way.

ghost use Rattle.std.specs.Prelude.{◌≡◌, true, List, ◌∷◌, ℕ, ◌+◌, ◌-◌, leb, take};
ghost use Rattle.standard.specs.Base.{◌then◌else◌, within};
ghost use Rattle.standard.specs.Encodings.{lent};
ghost use Rattle.standard.specs.Layouts.{leads, gb18030_layout};
ghost use Rattle.standard.specs.Sequences.Gb18030.{gb18030, gb18030_range, gb18030_four_code, gb18030_third};
ghost use Rattle.sequences.specs.Code.{next_of};

use crate::{Sequence, code_point, gives, gives_code, gives_pair, wrong};
use index::mapped;
use layouts::gb18030::{four_pointer, gap};
use layouts::{leads, within};

pub fn gb18030(
    t1: &[u32],
    t2: &[u32],
    b0: u8,
    b1: u8,
    b2: u8,
    b3: u8,
    have: usize,
) -> Option<Sequence>
    ensures { (xs : List ℕ) → next_of result ≡ gb18030 (lent t1.now t2.now) (b0 ∷ take (have - 1) (b1 ∷ b2 ∷ b3 ∷ xs)) }
{
    if b0 < 0x80 {
        return gives(1, b0 as u32);
    }
    if b0 == 0x80 {
        return gives(1, 0x20AC);
    }
    if !leads(30, b0) {
        return wrong(1);
    }
    if within(0x30, b1, 0x39) {
        if have < 3 {
            return None;
        }
        return third(&*t2, b0, b1, b2, b3, have);
    }
    gives_pair(have, b1, code_point(30, &*t1, b0, b1))
}

// The third byte and the fourth: where one of them is another byte, all behind the first are put back.
fn third(ranges: &[u32], b: u8, c: u8, d: u8, e: u8, have: usize) -> Option<Sequence>
    requires { (leads gb18030_layout b ≡ true) × (within 0x30 c 0x39 ≡ true) }
    ensures { (xs : List ℕ) → next_of result ≡ gb18030_third ranges.now b c d (take (have - 3) (e ∷ xs)) }
{
    if !within(0x81, d, 0xFE) {
        return wrong(1);
    }
    if have < 4 {
        return None;
    }
    if !within(0x30, e, 0x39) {
        return wrong(1);
    }
    gives_code(4, four_code(&*ranges, four_pointer(b, c, d, e)))
}

// The code point of a pointer, 0 for none.
fn four_code(ranges: &[u32], p: u32) -> u32
    ensures { result ≡ gb18030_four_code ranges.now p }
{
    if gap(p) {
        return 0;
    }
    if p == 7457 {
        return 0xE7C7;
    }
    let c = range_code(&*ranges, p);
    if 0x10FFFF < c {
        return 0;
    }
    let u = c as u32;
    if mapped(u) { u } else { 0 }
}

// The last pair in list order whose pointer is not above p.
fn range_code(ranges: &[u32], p: u32) -> u64
    ensures { result ≡ gb18030_range ranges.now p 0 }
{
    let mut found: u64 = 0;
    for i in 0..ranges.len() / 2 {
        found = range_next(ranges[i * 2], ranges[i * 2 + 1], p, found);
    }
    found
}

// The answer so far, after one more pair.
fn range_next(q: u32, c: u32, p: u32, found: u64) -> u64
    ensures { result ≡ (leb q p then c + (p - q) else found) }
{
    if p < q {
        return found;
    }
    (c as u64) + ((p - q) as u64)
}
