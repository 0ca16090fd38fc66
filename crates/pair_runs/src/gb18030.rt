// The sequences of four bytes of gb18030 and GBK.

ghost use Rattle.std.specs.Prelude.{◌≡◌, true, false, List, ℕ, ◌+◌, ◌-◌, ◌*◌, ◌/◌, ◌≤◌, ◌<◌, length, drop, get_or, IfSome};
ghost use Rattle.standard.specs.Base.{mapped};
ghost use Rattle.standard.specs.Encodings.{GB18030, lent};
ghost use Rattle.standard.specs.Sequence.{scalar, plain};
ghost use Rattle.standard.specs.Sequences.Gb18030.{gb18030_range};
ghost use Rattle.standard.specs.Next.{next};
ghost use Rattle.layouts.specs.Ranges.{Ascending};

use index::mapped;
use layouts::gb18030::{four_pointer, gap};
use layouts::ranges::search;

// The scalar of the four bytes at a place; none too where the ranges are not in order.
pub(crate) fn four_at<const N: usize>(
    ranges: &[u32],
    ordered: bool,
    last: &mut [u16; N],
    chunk: &[u8],
    i: usize,
) -> Option<u32>
    requires { (1 ≤ N) × (i ≤ length chunk.now) × (ordered ≡ true → Ascending false ranges.now) }
    ensures size { length last.new ≡ N }
    ensures scalar { IfSome result (λ c. (ordered ≡ true) × (i + 4 ≤ length chunk.now)
        × ((first : List ℕ) → next (lent first ranges.now) GB18030 plain (drop i chunk.now) ≡ scalar 4 c)) }
{
    if !ordered {
        return None;
    }
    if chunk.len() - i < 4 {
        return None;
    }
    let p = four_pointer(chunk[i], chunk[i + 1], chunk[i + 2], chunk[i + 3]);
    if p == 7457 {
        return None;
    }
    if gap(p) {
        return None;
    }
    four_scalar(&*ranges, last, p)
}

// The scalar of a pointer by the ranges: by the pair last used for it, or by a search.
fn four_scalar<const N: usize>(ranges: &[u32], last: &mut [u16; N], p: u32) -> Option<u32>
    requires { (1 ≤ N) × Ascending false ranges.now }
    ensures size { length last.new ≡ N }
    ensures scalar { IfSome result (λ c. (c ≡ gb18030_range ranges.now p 0) × (mapped c ≡ true)) }
{
    let h = (p / 32) as usize % N;
    let told = range_scalar(&*ranges, number(last[h]), p);
    if told.is_some() {
        return told;
    }
    let k = search(&*ranges, false, p);
    last[h] = k as u16;
    range_scalar(&*ranges, k, p)
}

// The number of a pair.
fn number(k: u16) -> usize
    ensures { result ≡ k }
{
    k as usize
}

// The scalar of a pointer by a pair; none too where the pair is not the last one that is not above the pointer.
fn range_scalar(ranges: &[u32], k: usize, p: u32) -> Option<u32>
    requires { Ascending false ranges.now }
    ensures { IfSome result (λ c. (c ≡ gb18030_range ranges.now p 0) × (mapped c ≡ true)) }
{
    if ranges.len() / 2 <= k {
        return None;
    }
    if pointer_after(&*ranges, k) <= p as u64 {
        return None;
    }
    pair_scalar(ranges[k * 2], ranges[k * 2 + 1], p)
}

// The pointer of the pair after a pair; above all pointers if there is none. Without a branch, which would be guessed wrong often.
fn pointer_after(ranges: &[u32], k: usize) -> u64
    requires { (length ranges.now ≤ 65536) × (k < length ranges.now / 2) }
    ensures { k + 1 < length ranges.now / 2 → result ≡ get_or ranges.now ((k + 1) * 2) 0 }
{
    let z = at_end(ranges.len() / 2, k);
    wide(ranges[(k + 1 - z) * 2]) + (z as u64) * 0x100000000
}

// 1 for the last of n pairs, else 0. A number and not a bool: it is reckoned with, and no test is compiled.
fn at_end(n: usize, k: usize) -> usize
    requires { (n ≤ 32768) × (k < n) }
    ensures { (result ≤ 1) × (k + 1 < n + result) × (k + 1 < n → result ≡ 0) }
{
    (k + 0x100000001 - n) / 0x100000000
}

// A number of 32 bits.
fn wide(q: u32) -> u64
    ensures { (result ≡ q) × (q < 0x100000000) }
{
    q as u64
}

// The scalar that a pair gives for a pointer.
fn pair_scalar(q: u32, c: u32, p: u32) -> Option<u32>
    ensures { IfSome result (λ u. (q ≤ p) × (u ≡ c + (p - q)) × (mapped u ≡ true)) }
{
    if p < q {
        return None;
    }
    let u = (c as u64) + ((p - q) as u64);
    if 0x10FFFF < u {
        return None;
    }
    let v = u as u32;
    if mapped(v) { Some(v) } else { None }
}
