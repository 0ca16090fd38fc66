// Runs of the single-byte encodings: by a table of 256 scalars, or byte by byte.

ghost use Rattle.std.specs.Prelude.{◌≡◌, ◌∷◌, [], true, ℕ, ◌+◌, ◌-◌, ◌*◌, ◌/◌, ◌%◌, ◌≤◌, ◌<◌, length, get_or, MatchOption};
ghost use Rattle.std.proofs.lemmas.List.Edits.{sets};
ghost use Rattle.standard.specs.Base.{◌then◌else◌, mapped, line_feeds};
ghost use Rattle.standard.specs.Encodings.{Tables, lent, single-byte, windows-1252};
ghost use Rattle.standard.specs.Indexes.{irregular};
ghost use Rattle.line_feeds.specs.Parts.{part};
ghost use Rattle.runs.specs.Run.{Run, Ready, placed, patch};
ghost use Rattle.runs.specs.Counts.{Counts};
ghost use Rattle.word_runs.specs.Units.{values};
ghost use Rattle.word_runs.specs.Bytes.{unmapped, byte_scalar, windows_scalar, Halves, byte_of, Through, Gapless, Sound};

use crate::unread;
use crate::words::read_words;
use index::{IRREGULAR, mapped};
use line_feeds::{in_block, in_bytes};
use runs::ascii::Stretch;
use runs::{Counted, Place, ready_plain};

// The scalar of a byte, and None for an error in mode 1. The cell is read for ASCII too, so that no branch tells the two apart.
fn scalar(mode: u8, cells: &[u32], b: u8) -> Option<u32>
    requires { 128 ≤ length cells.now }
    ensures { MatchOption result (byte_scalar mode cells.now b ≡ 0x110000)
        (λ c. (c ≡ byte_scalar mode cells.now b) × (c ≡ 0x110000 → ⊥)) }
{
    let c = cells[usize::from(b % 128)];
    if mapped(c) {
        if b < 0x80 {
            Some(u32::from(b))
        } else {
            Some(c)
        }
    } else if b < 0x80 {
        Some(u32::from(b))
    } else if mode == 1 {
        None
    } else {
        Some(0xFFFD)
    }
}

// The scalar of a byte in windows-1252. A cell is read for each byte, so that no branch tells them apart.
fn windows_scalar(cells: &[u32], b: u8) -> u32
    requires { cells.now ≡ irregular }
    ensures { (result ≡ windows_scalar b) × (b < 256) }
{
    let c = cells[usize::from(b % 32)];
    if 0x80 <= b && b < 0xA0 {
        c
    } else {
        u32::from(b)
    }
}

// Each place of a table, as its cell.
fn places(table: &mut [u32; 256])
    ensures { (j : ℕ) → j < 256 → get_or table.new j 0 ≡ j }
{
    for b in 0..256 {
        table[b] = b as u32;
    }
}

// The scalar of a cell, or another where the cell is unmapped.
fn mapped_or(c: u32, other: u32) -> u32
    ensures { result ≡ (mapped c then c else other) }
{
    if mapped(c) { c } else { other }
}

// What an unmapped byte gives: U+FFFD, and 0x110000, which is no scalar, in mode 1. A number and not an Option: cells of a table hold it.
fn unmapped(mode: u8) -> u32
    ensures { result ≡ unmapped mode }
{
    if mode == 1 { 0x110000 } else { 0xFFFD }
}

// The scalar of each byte, into a table.
fn fill(mode: u8, cells: &[u32], table: &mut [u32; 256])
    requires { 128 ≤ length cells.now }
    ensures { (j : ℕ) → j < 256 → get_or table.new j 0 ≡ byte_scalar mode cells.now j }
{
    places(table);
    let other = unmapped(mode);
    for k in 0..128 {
        table[k + 128] = mapped_or(cells[k], other);
    }
}

// The scalar of each byte in windows-1252, into a table.
fn fill_windows(cells: &[u32], table: &mut [u32; 256])
    requires { cells.now ≡ irregular }
    ensures { (j : ℕ) → j < 256 → get_or table.new j 0 ≡ windows_scalar j }
{
    places(table);
    for k in 0..32 {
        table[k + 128] = cells[k];
    }
}

// The scalars of a table in the upper half of a number.
fn halves(table: &[u32; 256], high: &mut [u64; 256])
    ensures { Halves table.now high.new }
{
    for b in 0..256 {
        high[b] = u64::from(table[b]) * 0x100000000;
    }
}

// The scalars of a word's two bytes. They make one number, which is stored at once.
fn put_word(table: &[u32; 256], high: &[u64; 256], word: u16, room: &mut [u32], o: usize)
    requires { (Halves table.now high.now) × (o + 2 ≤ length room.old) }
    ensures { room.new ≡ sets room.old o (get_or table.now (word % 256) 0 ∷ get_or table.now (word / 256) 0 ∷ []) }
{
    let w = usize::from(word);
    let both = u64::from(table[w % 256]) + high[w / 256];
    room[o] = (both % 0x100000000) as u32;
    room[o + 1] = (both / 0x100000000) as u32;
}

// The scalars of four words. Written out, as sixteen are: a turn of sixteen words is faster than one of four or of one.
fn put_four(
    table: &[u32; 256],
    high: &[u64; 256],
    words: &[u16],
    j: usize,
    room: &mut [u32],
    o: usize,
)
    requires { (Halves table.now high.now) × (j + 4 ≤ length words.now) × (o + 8 ≤ length room.old) }
    ensures { room.new ≡ patch o (values (λ (k : ℕ). get_or table.now (byte_of words.now (j * 2 + k)) 0) 8) room.old }
{
    put_word(table, high, words[j], room, o);
    put_word(table, high, words[j + 1], room, o + 2);
    put_word(table, high, words[j + 2], room, o + 4);
    put_word(table, high, words[j + 3], room, o + 6);
}

// The scalars of sixteen words.
fn put_sixteen(
    table: &[u32; 256],
    high: &[u64; 256],
    words: &[u16],
    j: usize,
    room: &mut [u32],
    o: usize,
)
    requires { (Halves table.now high.now) × (j + 16 ≤ length words.now) × (o + 32 ≤ length room.old) }
    ensures { room.new ≡ patch o (values (λ (k : ℕ). get_or table.now (byte_of words.now (j * 2 + k)) 0) 32) room.old }
{
    put_four(table, high, words, j, room, o);
    put_four(table, high, words, j + 4, room, o + 8);
    put_four(table, high, words, j + 8, room, o + 16);
    put_four(table, high, words, j + 12, room, o + 24);
}

// The scalars of 192 words, sixteen at a time.
fn put_words(table: &[u32; 256], high: &[u64; 256], words: &[u16; 192], room: &mut [u32], o: usize)
    requires { (Halves table.now high.now) × (o + 384 ≤ length room.old) }
    ensures { room.new ≡ patch o (values (λ (k : ℕ). get_or table.now (byte_of words.now k) 0) 384) room.old }
{
    for t in 0..12 {
        put_sixteen(table, high, words, t * 16, room, o + t * 32);
    }
}

// The line feeds among 384 bytes.
fn block_feeds(chunk: &[u8], at: usize) -> usize
    requires { at + 384 ≤ length chunk.now }
    ensures { result ≡ line_feeds (part chunk.now at 384) }
{
    in_block(chunk, at) + in_block(chunk, at + 192)
}

// Bytes through a table in blocks of 384, each counted while it is near; how many, and their line feeds.
fn put_blocks(
    table: &[u32; 256],
    chunk: &[u8],
    from: usize,
    room: &mut [u32],
    place: usize,
) -> Stretch
    requires { Ready chunk.now from room.old place }
    ensures { (result.length ≤ length chunk.now - from)
        × (Through (λ (b : ℕ). get_or table.now b 0) chunk.now from result.length place room.old room.new)
        × (result.lines ≡ line_feeds (part chunk.now from result.length)) }
{
    let n = chunk.len() - from;
    let mut high = [0u64; 256];
    halves(table, &mut high);
    let mut words = [0u16; 192];
    let mut lines = 0;
    for t in 0..n / 384 {
        let k = t * 384;
        read_words(chunk, from + k, &mut words);
        lines += block_feeds(chunk, from + k);
        put_words(table, &high, &words, room, place + k);
    }
    Stretch {
        length: n / 384 * 384,
        lines,
    }
}

// So many bytes through a table, one by one.
fn put_bytes(
    table: &[u32; 256],
    chunk: &[u8],
    from: usize,
    n: usize,
    room: &mut [u32],
    place: usize,
)
    requires { (Ready chunk.now from room.old place) × (n ≤ length chunk.now - from) }
    ensures { Through (λ (b : ℕ). get_or table.now b 0) chunk.now from n place room.old room.new }
{
    for k in 0..n {
        room[place + k] = table[usize::from(chunk[from + k])];
    }
}

// Each byte through a table; their line feeds. Two scalars are stored at once: from an even place on no store reaches over two lines of the cache.
fn look_up(table: &[u32; 256], chunk: &[u8], from: usize, room: &mut [u32], place: usize) -> usize
    requires { (Ready chunk.now from room.old place) × (from < length chunk.now) }
    ensures { (Through (λ (b : ℕ). get_or table.now b 0) chunk.now from (length chunk.now - from) place room.old room.new)
        × (result ≡ line_feeds (part chunk.now from (length chunk.now - from))) }
{
    let odd = place % 2;
    put_bytes(table, chunk, from, odd, room, place);
    let b = put_blocks(table, chunk, from + odd, room, place + odd);
    let k = odd + b.length;
    put_bytes(
        table,
        chunk,
        from + k,
        chunk.len() - from - k,
        room,
        place + k,
    );
    let first = in_bytes(chunk, from, from + odd);
    let last = in_bytes(chunk, from + k, chunk.len());
    first + b.lines + last
}

// A run of a single-byte encoding, byte by byte; it stops at an error in mode 1.
fn single_bytes(
    mode: u8,
    chunk: &[u8],
    t1: &[u32],
    t2: &[u32],
    from: usize,
    room: &mut [u32],
    place: usize,
) -> Place
    requires { (128 ≤ length t1.now) × (Ready chunk.now from room.old place) }
    ensures { Run (lent t1.now t2.now) single-byte mode chunk.now (placed from place 0 0) result room.old room.new }
{
    for (k, b) in chunk[from..].iter().enumerate() {
        let Some(c) = scalar(mode, t1, *b) else {
            return Place {
                at: from + k,
                written: place + k,
                state: 0,
                flag: 0,
            };
        };
        room[place + k] = c;
    }
    let n = chunk.len() - from;
    Place {
        at: from + n,
        written: place + n,
        state: 0,
        flag: 0,
    }
}

// A run of windows-1252, byte by byte.
fn windows_bytes(cells: &[u32], chunk: &[u8], from: usize, room: &mut [u32], place: usize)
    requires { (cells.now ≡ irregular) × (Ready chunk.now from room.old place) }
    ensures { Through windows_scalar chunk.now from (length chunk.now - from) place room.old room.new }
{
    for k in 0..chunk.len() - from {
        room[place + k] = windows_scalar(cells, chunk[from + k]);
    }
}

// Is each cell of a table a scalar?
fn gapless(table: &[u32; 256]) -> bool
    ensures { result ≡ true → Gapless table.now 256 }
{
    !table.contains(&0x110000)
}

// Has each byte from a place on a scalar in a table?
fn has_scalars(table: &[u32; 256], chunk: &[u8], from: usize) -> bool
    requires { from ≤ length chunk.now }
    ensures { result ≡ true → Sound table.now chunk.now from (length chunk.now - from) }
{
    chunk[from..]
        .iter()
        .all(|b| table[usize::from(*b)] != 0x110000)
}

// May each byte from a place on go through a table? In mode 1 none is unmapped.
fn sound(mode: u8, table: &[u32; 256], chunk: &[u8], from: usize) -> bool
    requires { from ≤ length chunk.now }
    ensures { result ≡ true → mode ≡ 1 → Sound table.now chunk.now from (length chunk.now - from) }
{
    mode != 1 || gapless(table) || has_scalars(table, chunk, from)
}

// The same with its line feeds.
fn count_single_bytes(
    mode: u8,
    chunk: &[u8],
    t1: &[u32],
    t2: &[u32],
    from: usize,
    room: &mut [u32],
    place: usize,
) -> Counted
    requires { (128 ≤ length t1.now) × (Ready chunk.now from room.old place) }
    ensures { Counts (lent t1.now t2.now) single-byte mode chunk.now (placed from place 0 0) result room.old room.new }
{
    let r = single_bytes(mode, chunk, t1, t2, from, room, place);
    let lines = in_bytes(chunk, from, r.at);
    Counted {
        at: r.at,
        written: r.written,
        lines,
        state: r.state,
        flag: r.flag,
    }
}

// A run of a single-byte encoding, by a table where there are many bytes.
fn single_byte_text(
    mode: u8,
    chunk: &[u8],
    t1: &[u32],
    t2: &[u32],
    from: usize,
    room: &mut [u32],
    place: usize,
) -> Counted
    requires { (128 ≤ length t1.now) × (Ready chunk.now from room.old place) }
    ensures { Counts (lent t1.now t2.now) single-byte mode chunk.now (placed from place 0 0) result room.old room.new }
{
    let n = chunk.len() - from;
    if n < 512 {
        return count_single_bytes(mode, chunk, t1, t2, from, room, place);
    }
    let mut table = [0u32; 256];
    fill(mode, t1, &mut table);
    if !sound(mode, &table, chunk, from) {
        return count_single_bytes(mode, chunk, t1, t2, from, room, place);
    }
    let lines = look_up(&table, chunk, from, room, place);
    Counted {
        at: from + n,
        written: place + n,
        lines,
        state: 0,
        flag: 0,
    }
}

// A run of a single-byte encoding with its line feeds, whose table is lent.
pub fn single_byte_run(
    mode: u8,
    chunk: &[u8],
    t1: &[u32],
    t2: &[u32],
    room: &mut [u32],
    p: Place,
) -> Counted
    ensures { Counts (lent t1.now t2.now) single-byte mode chunk.now p result room.old room.new }
{
    if !ready_plain(chunk.len(), room.len(), p) || t1.len() < 128 {
        return unread(p);
    }
    single_byte_text(mode, chunk, t1, t2, p.at, room, p.written)
}

// Each byte of windows-1252, by a table where there are many; their line feeds.
fn windows_scalars(chunk: &[u8], from: usize, room: &mut [u32], place: usize) -> usize
    requires { Ready chunk.now from room.old place }
    ensures { (Through windows_scalar chunk.now from (length chunk.now - from) place room.old room.new)
        × (result ≡ line_feeds (part chunk.now from (length chunk.now - from))) }
{
    if chunk.len() - from < 512 {
        windows_bytes(&IRREGULAR, chunk, from, room, place);
        return in_bytes(chunk, from, chunk.len());
    }
    let mut table = [0u32; 256];
    fill_windows(&IRREGULAR, &mut table);
    look_up(&table, chunk, from, room, place)
}

// A run of windows-1252 with its line feeds, for any tables and in any mode.
pub fn windows_1252_run(chunk: &[u8], room: &mut [u32], p: Place) -> Counted
    ensures { (t : Tables) (m : ℕ) → Counts t windows-1252 m chunk.now p result room.old room.new }
{
    if !ready_plain(chunk.len(), room.len(), p) {
        return unread(p);
    }
    let lines = windows_scalars(chunk, p.at, room, p.written);
    let n = chunk.len() - p.at;
    Counted {
        at: p.at + n,
        written: p.written + n,
        lines,
        state: 0,
        flag: 0,
    }
}
