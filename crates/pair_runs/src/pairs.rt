// The encodings of one and two bytes, and of four in gb18030: GBK, gb18030, Big5, EUC-JP, Shift_JIS and EUC-KR.

ghost use Rattle.std.specs.Prelude.{◌≡◌, true, false, List, ◌∷◌, ℕ, ◌+◌, ◌≤◌, ◌<◌, ltb, length, IfSome, MatchOption};
ghost use Rattle.standard.specs.Base.{◌then◌else◌, within};
ghost use Rattle.standard.specs.Encodings.{family, lent};
ghost use Rattle.standard.specs.Sequence.{plain, scalar, cell};
ghost use Rattle.standard.specs.Next.{next};
ghost use Rattle.layouts.specs.Ranges.{Ascending};
ghost use Rattle.runs.specs.Run.{Run, Ready, placed, Gives};
ghost use Rattle.pair_runs.specs.Layout.{row, column, Laid};
ghost use Rattle.pair_runs.specs.Paired.{Paired};

use crate::gb18030::four_at;
use crate::layout::{lay_out, pair_pointer, pair_row, pointer_laid, row_laid};
use index::cell;
use layouts::ranges::in_order;
use layouts::{pointer, within};
use runs::ascii::copy_ascii;
use runs::{Place, next_at, plain_scalar_of, ready_plain, wide};

// The pointer of a pair, by the table of rows and columns if there is one.
#[inline(always)]
fn pointer_of(encoding: u8, layout: Option<&[u16; 512]>, lead: u8, trail: u8) -> usize
    requires { IfSome layout (λ l. Laid encoding l.now) }
    ensures { result ≡ row encoding lead + column encoding trail }
{
    match layout {
        Some(laid) => pointer_laid(laid, lead, trail),
        None => pair_pointer(encoding, lead, trail),
    }
}

// The scalar of a pair of the user rows of Shift_JIS.
fn user_pair(lead: u8, trail: u8) -> Option<u32>
    ensures { IfSome result (λ c. (t1 t2 xs : List ℕ) → next (lent t1 t2) (family 34) plain (lead ∷ trail ∷ xs) ≡ scalar 2 c) }
{
    let p = pointer(34, lead, trail);
    if p < 8836 {
        return None;
    }
    if 10715 < p {
        return None;
    }
    Some(0xE000 - 8836 + (p as u32))
}

// The scalar of a pair. EUC-JP has half-width katakana after 8E. Part of each loop over items.
#[inline(always)]
fn pair(encoding: u8, layout: Option<&[u16; 512]>, t1: &[u32], lead: u8, trail: u8) -> Option<u32>
    requires { (Paired encoding) × (length t1.now ≤ 32768) × (IfSome layout (λ l. Laid encoding l.now)) }
    ensures { MatchOption result (cell t1.now (row encoding lead + column encoding trail) ≡ 0)
        (λ c. (second xs : List ℕ) → next (lent t1.now second) (family encoding) plain (lead ∷ trail ∷ xs) ≡ scalar 2 c) }
{
    let c = cell(&*t1, pointer_of(encoding, layout, lead, trail));
    if c != 0 {
        return Some(c);
    }
    if encoding == 34 {
        return user_pair(lead, trail);
    }
    if lead != 0x8E {
        return None;
    }
    if encoding != 32 {
        return None;
    }
    if within(0xA1, trail, 0xDF) {
        return Some((0xFF61 - 0xA1) + (trail as u32));
    }
    None
}

// What an error gives: U+FFFD, and nothing in mode 1.
fn replaced(mode: u8) -> Option<u32>
    ensures { IfSome result (λ c. (c ≡ 0xFFFD) × (mode ≡ 1 → ⊥)) }
{
    if mode == 1 {
        return None;
    }
    Some(0xFFFD)
}

// The scalar of a single byte of Shift_JIS; none for a lead, and for an error in mode 1.
fn shift_jis_single(mode: u8, b: u8) -> Option<u32>
    requires { 0x80 ≤ b }
    ensures { IfSome result (λ c. (t1 t2 xs : List ℕ) → Gives mode (next (lent t1 t2) (family 34) plain (b ∷ xs)) 1 plain c) }
{
    if within(0xA1, b, 0xDF) {
        return Some((0xFF61 - 0xA1) + (b as u32));
    }
    if b == 0x80 {
        return Some(0x80);
    }
    if b == 0xA0 {
        return replaced(mode);
    }
    if 0xFC < b {
        return replaced(mode);
    }
    None
}

// Of EUC-JP, where every single byte is an error.
fn euc_jp_single(mode: u8, b: u8) -> Option<u32>
    requires { 0x80 ≤ b }
    ensures { IfSome result (λ c. (t1 t2 xs : List ℕ) → Gives mode (next (lent t1 t2) (family 32) plain (b ∷ xs)) 1 plain c) }
{
    if within(0xA1, b, 0xFE) {
        return None;
    }
    if b == 0x8E {
        return None;
    }
    if b == 0x8F {
        return None;
    }
    replaced(mode)
}

// Of any encoding with pairs.
fn single(encoding: u8, mode: u8, b: u8) -> Option<u32>
    requires { (Paired encoding) × (0x80 ≤ b) }
    ensures { IfSome result (λ c. (t1 t2 xs : List ℕ) → Gives mode (next (lent t1 t2) (family encoding) plain (b ∷ xs)) 1 plain c) }
{
    if encoding == 34 {
        return shift_jis_single(mode, b);
    }
    if encoding == 32 {
        return euc_jp_single(mode, b);
    }
    if within(0x81, b, 0xFE) {
        return None;
    }
    if b == 0xFF {
        return replaced(mode);
    }
    if encoding <= 30 {
        return Some(0x20AC);
    }
    replaced(mode)
}

// The width of a pair that is an error if it has no code point; none in mode 1, and where four bytes may begin.
fn bad_width(
    encoding: u8,
    mode: u8,
    layout: Option<&[u16; 512]>,
    lead: u8,
    trail: u8,
) -> Option<usize>
    requires { IfSome layout (λ l. Laid encoding l.now) }
    ensures { IfSome result (λ w. (mode ≡ 1 → ⊥) × (row encoding lead < 32768) × (within 0x30 trail 0x39 ≡ false) × (w ≡ (ltb trail 0x80 then 1 else 2))) }
{
    if mode == 1 {
        return None;
    }
    if within(0x30, trail, 0x39) {
        return None;
    }
    if 32768 <= row_of(encoding, layout, lead) {
        return None;
    }
    if trail < 0x80 {
        return Some(1);
    }
    Some(2)
}

// The row of a lead, by the table of rows and columns if there is one.
fn row_of(encoding: u8, layout: Option<&[u16; 512]>, lead: u8) -> u16
    requires { IfSome layout (λ l. Laid encoding l.now) }
    ensures { result ≡ row encoding lead }
{
    match layout {
        Some(laid) => row_laid(laid, lead),
        None => pair_row(encoding, lead),
    }
}

// May the ranges be searched?
fn searched(encoding: u8, t2: &[u32]) -> bool
    ensures { result ≡ true → (encoding ≤ 30) × Ascending false t2.now }
{
    if 30 < encoding {
        return false;
    }
    in_order(&*t2, false)
}

// From how many bytes on it pays to look whether they may: from fewer in gb18030, where four bytes are usual.
fn many(encoding: u8) -> usize {
    if encoding == 30 {
        return 1000;
    }
    4096
}

// ASCII, pairs, and anything else that gives one scalar. The rows and columns are laid out, and the ranges searched, only where it pays.
fn text(
    encoding: u8,
    mode: u8,
    chunk: &[u8],
    t1: &[u32],
    t2: &[u32],
    from: usize,
    room: &mut [u32],
    place: usize,
) -> Place
    requires { (Paired encoding) × (length t1.now ≤ 32768) × (Ready chunk.now from room.old place) }
    ensures { Run (lent t1.now t2.now) (family encoding) mode chunk.now (placed from place 0 0) result room.old room.new }
{
    if chunk.len() - from < 32 {
        let mut last = [0u16; 1];
        return items(
            encoding, mode, &*chunk, &*t1, &*t2, None, false, &mut last, from, room, place,
        );
    }
    let mut layout = [32768u16; 512];
    lay_out(encoding, &mut layout);
    if chunk.len() - from < many(encoding) {
        let mut last = [0u16; 1];
        return items(
            encoding,
            mode,
            &*chunk,
            &*t1,
            &*t2,
            Some(&layout),
            false,
            &mut last,
            from,
            room,
            place,
        );
    }
    let mut last = [0u16; 1024];
    items(
        encoding,
        mode,
        &*chunk,
        &*t1,
        &*t2,
        Some(&layout),
        searched(encoding, &*t2),
        &mut last,
        from,
        room,
        place,
    )
}

// A run of an encoding with pairs; none of another.
pub fn pairs_run(
    encoding: u8,
    mode: u8,
    chunk: &[u8],
    t1: &[u32],
    t2: &[u32],
    room: &mut [u32],
    p: Place,
) -> Place
    ensures { Run (lent t1.now t2.now) (family encoding) mode chunk.now p result room.old room.new }
{
    if chunk.len() < 2 {
        return p;
    }
    if !paired(encoding) {
        return p;
    }
    if 32768 < t1.len() {
        return p;
    }
    if !ready_plain(chunk.len(), room.len(), p) {
        return p;
    }
    text(encoding, mode, &*chunk, &*t1, &*t2, p.at, room, p.written)
}

// Is it the number of an encoding with pairs?
fn paired(encoding: u8) -> bool
    ensures { result ≡ true → Paired encoding }
{
    if encoding < 29 {
        return false;
    }
    if encoding == 33 {
        return false;
    }
    encoding <= 35
}

// Item after item, while two bytes are left. `last` has the pairs of ranges last used, by pointer. A function of its own, so that its
// places stay in registers.
#[inline(never)]
fn items<const N: usize>(
    encoding: u8,
    mode: u8,
    chunk: &[u8],
    t1: &[u32],
    t2: &[u32],
    layout: Option<&[u16; 512]>,
    ordered: bool,
    last: &mut [u16; N],
    from: usize,
    room: &mut [u32],
    place: usize,
) -> Place
    requires { (1 ≤ N) × (Paired encoding) × (length t1.now ≤ 32768) × (IfSome layout (λ l. Laid encoding l.now))
        × (ordered ≡ true → (encoding ≤ 30) × Ascending false t2.now) × (Ready chunk.now from room.old place) }
    ensures { Run (lent t1.now t2.now) (family encoding) mode chunk.now (placed from place 0 0) result room.old room.new }
{
    let mut i = from;
    let mut o = place;
    while 2 <= chunk.len() - i {
        let lead = chunk[i];
        let trail = chunk[i + 1];
        if lead < 0x80 {
            if 0x80 <= trail {
                room[o] = wide(lead);
                i += 1;
                o += 1;
                continue;
            }
            let k = copy_ascii(&*chunk, i, room, o);
            i += k;
            o += k;
            continue;
        }
        if let Some(c) = pair(encoding, layout, &*t1, lead, trail) {
            room[o] = c;
            i += 2;
            o += 1;
            continue;
        }
        if let Some(c) = four_at(&*t2, ordered, last, &*chunk, i) {
            room[o] = c;
            i += 4;
            o += 1;
            continue;
        }
        if let Some(c) = single(encoding, mode, lead) {
            room[o] = c;
            i += 1;
            o += 1;
            continue;
        }
        if let Some(width) = bad_width(encoding, mode, layout, lead, trail) {
            room[o] = 0xFFFD;
            i += width;
            o += 1;
            continue;
        }
        let Some(q) = next_at(&*t1, &*t2, encoding, 0, 0, &*chunk, i) else {
            break;
        };
        let Some(u) = plain_scalar_of(mode, Some(q)) else {
            break;
        };
        room[o] = u;
        o += 1;
        i += q.width as usize;
    }
    Place {
        at: i,
        written: o,
        state: 0,
        flag: 0,
    }
}
