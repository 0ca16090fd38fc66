// UTF-16BE and UTF-16LE: blocks of units without surrogates, and else sequence by sequence.

ghost use Rattle.std.specs.Prelude.{◌≡◌, ◌∷◌, [], true, ℕ, ◌+◌, ◌≤◌, ◌<◌, length, drop, get_or, IfSome};
ghost use Rattle.standard.specs.Base.{line_feeds};
ghost use Rattle.standard.specs.Encodings.{Tables};
ghost use Rattle.standard.specs.Sequence.{plain, bad};
ghost use Rattle.standard.specs.Sequences.Utf16.{utf16, utf16_pair, unit};
ghost use Rattle.runs.specs.Run.{Ready, Gives, patch};
ghost use Rattle.runs.specs.Counts.{Counts};
ghost use Rattle.word_runs.specs.Units.{utf16_family, values, oriented, NoSurrogate, UnitRun};

use crate::unread;
use crate::words::read_words;
use line_feeds::one_scalar;
use runs::{Counted, Place, ready_plain};
use sequences::utf_16::unit;

// A sequence of one scalar.
#[derive(Clone, Copy)]
struct Scalar {
    width: usize,
    scalar: u32,
}

// A place in the chunk and in the room, and the line feeds written up to there. UTF-16 has no shift, so this is no `Counted`.
#[derive(Clone, Copy)]
struct Reached {
    at: usize,
    written: usize,
    lines: usize,
}

// The unit of a word whose second byte is the upper one.
fn oriented(be: bool, word: u16) -> u16
    ensures { result ≡ oriented be word }
{
    if be {
        word % 256 * 256 + word / 256
    } else {
        word
    }
}

// 1 for a surrogate, and else what was found before it.
fn found(before: u16, u: u16) -> u16
    ensures { result ≡ 0 → (before ≡ 0) × NoSurrogate u }
{
    if u < 0xD800 || 0xDFFF < u { before } else { 1 }
}

// Is no unit a surrogate? All are asked, without a branch, by a number as wide as a unit.
fn all_clear(be: bool, words: &[u16]) -> bool
    ensures { result ≡ true → (j : ℕ) → j < length words.now → NoSurrogate (oriented be (get_or words.now j 0)) }
{
    let mut x: u16 = 0;
    for word in words {
        x = found(x, oriented(be, *word));
    }
    x == 0
}

// 1 for a line feed, 0 for another unit.
fn one(u: u16) -> u16
    ensures { result ≡ line_feeds (u ∷ []) }
{
    u16::from(u == 0x0A)
}

// The line feeds among units.
fn feeds(be: bool, words: &[u16]) -> u16
    requires { length words.now ≤ 64 }
    ensures { (result ≡ line_feeds (values (λ (j : ℕ). oriented be (get_or words.now j 0)) (length words.now)))
        × (result ≤ length words.now) }
{
    let mut count: u16 = 0;
    for word in words {
        count += one(oriented(be, *word));
    }
    count
}

// Units that are scalars, into the room.
fn put_units(be: bool, words: &[u16], room: &mut [u32], o: usize)
    requires { o + length words.now ≤ length room.old }
    ensures { room.new ≡ patch o (values (λ (j : ℕ). oriented be (get_or words.now j 0)) (length words.now)) room.old }
{
    for (k, word) in words.iter().enumerate() {
        room[o + k] = u32::from(oriented(be, *word));
    }
}

// Blocks of N units without surrogates, from a place on. They are counted behind the stores, which take longest.
fn blocks<const N: usize>(
    be: bool,
    chunk: &[u8],
    from: usize,
    room: &mut [u32],
    place: usize,
) -> Reached
    requires { (Ready chunk.now from room.old place) × (1 ≤ N) × (N ≤ 64) }
    ensures { (m : ℕ) → UnitRun be m chunk.now from place result room.old room.new }
{
    let mut words = [0u16; N];
    let mut at = from;
    let mut written = place;
    let mut lines = 0;
    while chunk.len() - at >= N * 2 {
        read_words(chunk, at, &mut words);
        if !all_clear(be, &words) {
            return Reached { at, written, lines };
        }
        put_units(be, &words, room, written);
        lines += usize::from(feeds(be, &words));
        at += N * 2;
        written += N;
    }
    Reached { at, written, lines }
}

// The same. With byte order and length known the compiler keeps a block in registers.
fn oriented_blocks<const N: usize>(
    be: bool,
    chunk: &[u8],
    from: usize,
    room: &mut [u32],
    place: usize,
) -> Reached
    requires { (Ready chunk.now from room.old place) × (1 ≤ N) × (N ≤ 64) }
    ensures { (m : ℕ) → UnitRun be m chunk.now from place result room.old room.new }
{
    if be {
        blocks::<N>(true, chunk, from, room, place)
    } else {
        blocks::<N>(false, chunk, from, room, place)
    }
}

// An error of a unit: U+FFFD, and none in mode 1.
fn wrong(mode: u8) -> Option<Scalar>
    ensures { IfSome result (λ q. Gives mode (bad 2) q.width plain q.scalar) }
{
    (mode != 1).then_some(Scalar {
        width: 2,
        scalar: 0xFFFD,
    })
}

// A unit after a leading surrogate.
fn pair(mode: u8, lead: u32, u: u32) -> Option<Scalar>
    requires { (0xD800 ≤ lead) × (lead ≤ 0xDBFF) }
    ensures { IfSome result (λ q. Gives mode (utf16_pair lead u) q.width plain q.scalar) }
{
    if u < 0xDC00 || 0xDFFF < u {
        return wrong(mode);
    }
    Some(Scalar {
        width: 4,
        scalar: 0x10000 + (lead - 0xD800) * 1024 + (u - 0xDC00),
    })
}

// The sequence at a place; None for an error in mode 1, and where the chunk ends in it.
fn sequence(be: bool, mode: u8, chunk: &[u8], i: usize) -> Option<Scalar>
    requires { (i + 1 < length chunk.now) × (length chunk.now ≤ 65536) }
    ensures { IfSome result (λ q. Gives mode (utf16 be (drop i chunk.now)) q.width plain q.scalar) }
{
    let u = unit(be, chunk[i], chunk[i + 1]);
    if u < 0xD800 || 0xDFFF < u {
        return Some(Scalar {
            width: 2,
            scalar: u,
        });
    }
    if 0xDBFF < u {
        return wrong(mode);
    }
    if chunk.len() - i < 4 {
        return None;
    }
    pair(mode, u, unit(be, chunk[i + 2], chunk[i + 3]))
}

// Up to 8 sequences.
fn sequences(
    be: bool,
    mode: u8,
    chunk: &[u8],
    from: usize,
    room: &mut [u32],
    place: usize,
) -> Reached
    requires { Ready chunk.now from room.old place }
    ensures { UnitRun be mode chunk.now from place result room.old room.new }
{
    let mut at = from;
    let mut written = place;
    let mut lines = 0;
    for _k in 0..8 {
        if chunk.len() - at < 2 {
            break;
        }
        let Some(q) = sequence(be, mode, chunk, at) else {
            break;
        };
        room[written] = q.scalar;
        lines += one_scalar(q.scalar) as usize;
        at += q.width;
        written += 1;
    }
    Reached { at, written, lines }
}

// Blocks and sequences by turns, as far as they go: long blocks, and short ones for text with surrogates here and there.
fn units(be: bool, mode: u8, chunk: &[u8], from: usize, room: &mut [u32], place: usize) -> Reached
    requires { Ready chunk.now from room.old place }
    ensures { UnitRun be mode chunk.now from place result room.old room.new }
{
    let mut i = from;
    let mut o = place;
    let mut lines: usize = 0;
    loop {
        let b = oriented_blocks::<64>(be, chunk, i, room, o);
        let c = oriented_blocks::<8>(be, chunk, b.at, room, b.written);
        let p = sequences(be, mode, chunk, c.at, room, c.written);
        lines = lines + b.lines + c.lines + p.lines;
        if p.at == i {
            return Reached {
                at: p.at,
                written: p.written,
                lines,
            };
        }
        i = p.at;
        o = p.written;
    }
}

// A run of UTF-16BE or UTF-16LE with its line feeds, for any tables.
pub fn utf_16_run(be: bool, mode: u8, chunk: &[u8], room: &mut [u32], p: Place) -> Counted
    ensures { (t : Tables) → Counts t (utf16_family be) mode chunk.now p result room.old room.new }
{
    if !ready_plain(chunk.len(), room.len(), p) {
        return unread(p);
    }
    let r = units(be, mode, chunk, p.at, room, p.written);
    Counted {
        at: r.at,
        written: r.written,
        lines: r.lines,
        state: 0,
        flag: 0,
    }
}
