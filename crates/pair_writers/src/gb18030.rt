// GBK and gb18030: 000, 10.1.2 and 10.2.2, and document 02, Ask 7.

ghost use Rattle.std.specs.Prelude.{◌≡◌, ◌&&◌, ◌+◌, ◌-◌, ◌≤◌, leb, eqb};
ghost use Rattle.standard.specs.Base.{◌then◌else◌};
ghost use Rattle.standard.specs.Indexes.{ranges_code_point, ranges_pointer};
ghost use Rattle.standard.specs.Machine.{tokens};
ghost use Rattle.standard.specs.Search.{pass_over};
ghost use Rattle.standard.specs.Encoders.Gb18030.{four_bytes, gives_back, four_or_error_with, gb18030_encode};
ghost use Rattle.layouts.specs.Ranges.{Ascending, onward, last_sum};
ghost use Rattle.reverse_index_spec.specs.ReverseIndex.{look_up};
ghost use Rattle.pair_writers.specs.Pairs.{told, Helped};
ghost use Rattle.pair_writers.specs.Fours.{Ordered};

use crate::{One, pairs};
use index::mapped;
use layouts::gb18030::gap;
use layouts::ranges::{in_order, search};

// The other number of a pair plus the difference, where its number is not above x; else what was found before.
fn sum(number: u32, other: u32, x: u32, found: u64) -> u64
    ensures { result ≡ (leb number x then other + (x - number) else found) }
{
    if x < number {
        found
    } else {
        u64::from(other) + u64::from(x - number)
    }
}

// One pair more, by its pointer; or back, by its code point.
fn onward(back: bool, p: u32, c: u32, x: u32, found: u64) -> u64
    ensures { result ≡ onward back p c x found }
{
    if back {
        sum(c, p, x, found)
    } else {
        sum(p, c, x, found)
    }
}

// By the last pair in list order that is not above x; `none` where there is none.
fn by_all(ranges: &[u32], back: bool, x: u32, none: u64) -> u64
    ensures { result ≡ last_sum back ranges.now x none }
{
    let mut found = none;
    for pair in ranges.chunks_exact(2) {
        found = onward(back, pair[0], pair[1], x, found);
    }
    found
}

// The same by halves, if the pairs are in order.
fn by_halves(ranges: &[u32], back: bool, x: u32, none: u64) -> u64
    ensures { Ascending back ranges.now → result ≡ last_sum back ranges.now x none }
{
    let k = search(ranges, back, x);
    if ranges.len() / 2 <= k {
        return none;
    }
    onward(back, ranges[k * 2], ranges[k * 2 + 1], x, none)
}

// The same, by halves where the pairs are in order.
fn last_sum(ranges: &[u32], ordered: bool, back: bool, x: u32, none: u64) -> u64
    ensures { Ordered ordered ranges.now → result ≡ last_sum back ranges.now x none }
{
    if ordered {
        by_halves(ranges, back, x, none)
    } else {
        by_all(ranges, back, x, none)
    }
}

// Are the pairs in order, by pointer and by code point?
pub(crate) fn ordered(ranges: &[u32]) -> bool
    ensures { Ordered result ranges.now }
{
    in_order(ranges, false) && in_order(ranges, true)
}

// Do the four bytes of a pointer read as a code point?
fn reads(ranges: &[u32], ordered: bool, p: u32, c: u32) -> bool
    ensures { Ordered ordered ranges.now → result ≡ gives_back (ranges_code_point ranges.now p) c }
{
    if gap(p) {
        return false;
    }
    if p == 7457 {
        return c == 0xE7C7;
    }
    last_sum(ranges, ordered, false, p, 0) == u64::from(c) && mapped(c)
}

// The four bytes of a pointer.
fn four_bytes(p: u32) -> One
    requires { p ≤ 1237575 }
    ensures { told result ≡ tokens (four_bytes p) }
{
    One::Four([
        (p / 12600 + 0x81) as u8,
        (p % 12600 / 1260 + 0x30) as u8,
        (p % 12600 % 1260 / 10 + 0x81) as u8,
        (p % 12600 % 1260 % 10 + 0x30) as u8,
    ])
}

// The four bytes of a code point's pointer by the ranges, where they read as it.
fn four(ranges: &[u32], ordered: bool, c: u32) -> One
    ensures { Ordered ordered ranges.now →
        told result ≡ four_or_error_with ranges.now (ranges_pointer ranges.now c) c }
{
    if c == 0xE7C7 {
        return four_bytes(7457);
    }
    let p = last_sum(ranges, ordered, true, c, 1237576);
    if 1237575 < p {
        return One::Unwritable(c);
    }
    if reads(ranges, ordered, p as u32, c) {
        return four_bytes(p as u32);
    }
    One::Unwritable(c)
}

// U+20AC has one byte in GBK.
fn euro(gbk: bool, c: u32) -> bool
    ensures { result ≡ (gbk && eqb c 0x20AC) }
{
    gbk && c == 0x20AC
}

// The table goes first; what it has not goes by the ranges in gb18030.
pub(crate) fn bytes_of(
    gbk: bool,
    table: &[u32],
    links: &[u32],
    ranges: &[u32],
    ordered: bool,
    slots: &[u16],
    c: u32,
) -> One
    ensures { Helped 23940 (pass_over 1 0) table.now slots.now →
        Ordered ordered ranges.now →
        told result ≡ gb18030_encode gbk (look_up table.now links.now) ranges.now c }
{
    if c < 0x80 {
        return One::Byte(c as u8);
    }
    if c == 0xE5E5 {
        return One::Unwritable(c);
    }
    if euro(gbk, c) {
        return One::Byte(0x80);
    }
    let one = pairs::pair(30, table, links, slots, 1, 0, c);
    match one {
        One::Unwritable(_) => if gbk { one } else { four(ranges, ordered, c) },
        _ => one,
    }
}
