// Stretches of ASCII, which stands for itself in most encodings.
// By places and not by parts of the slices: what is promised speaks of the whole chunk and room, so parts would be no plainer.

ghost use Rattle.std.specs.Prelude.{◌≡◌, ℕ, ◌+◌, ◌≤◌, ◌<◌, length, get_or};
ghost use Rattle.standard.specs.Base.{◌then◌else◌, line_feeds};
ghost use Rattle.line_feeds.specs.Parts.{part};
ghost use Rattle.runs.specs.Run.{Ready};
ghost use Rattle.runs.specs.Stretch.{Copied, Begins};

use crate::ready;
use line_feeds::{in_block, in_bytes};

// Copies the bytes below 80 in front of all that are left, one by one; how many. Each is stored once it is tested: no loop has to find the end again.
fn copy_each(chunk: &[u8], at: usize, room: &mut [u32], o: usize) -> usize
    requires { Ready chunk.now at room.old o }
    ensures { (Copied chunk.now at result o room.old room.new) × Begins chunk.now at result }
{
    for (k, b) in chunk[at..].iter().enumerate() {
        if 0x80 <= *b {
            return k;
        }
        room[o + k] = u32::from(*b);
    }
    chunk.len() - at
}

// Copies the bytes below 80 in front of seven; how many. No branch asks where they end: behind the end the last one is stored again.
// One byte alone, as between two words of another script, is told ahead.
fn copy_front(chunk: &[u8], at: usize, room: &mut [u32], o: usize) -> usize
    requires { (Ready chunk.now at room.old o) × (at + 7 ≤ length chunk.now) }
    ensures { (Copied chunk.now at result o room.old room.new) × (Begins chunk.now at result) × (result ≤ 7) }
{
    if 0x80 <= chunk[at] {
        return 0;
    }
    room[o] = u32::from(chunk[at]);
    if 0x80 <= chunk[at + 1] {
        return 1;
    }
    let mut last: usize = 0;
    let mut low = true;
    for k in 1..7 {
        low = low & (chunk[at + k] < 0x80);
        last += usize::from(low);
        room[o + last] = u32::from(chunk[at + last]);
    }
    last + 1
}

// At least each byte; below 80 only if each is.
fn joined(bytes: &[u8]) -> u8
    ensures { (j : ℕ) → j < length bytes.now → get_or bytes.now j 0 ≤ result }
{
    bytes.iter().fold(0, |all, b| all | *b)
}

// Copies four bytes, which are below 80. All are read before one is stored, not in a loop: so the compiler reads and stores them at once.
fn copy_four(chunk: &[u8], at: usize, room: &mut [u32], o: usize)
    requires { (Ready chunk.now at room.old o) × (at + 4 ≤ length chunk.now)
        × ((j : ℕ) → j < 4 → get_or chunk.now (at + j) 0 < 0x80) }
    ensures { Copied chunk.now at 4 o room.old room.new }
{
    let b0 = chunk[at];
    let b1 = chunk[at + 1];
    let b2 = chunk[at + 2];
    let b3 = chunk[at + 3];
    room[o] = u32::from(b0);
    room[o + 1] = u32::from(b1);
    room[o + 2] = u32::from(b2);
    room[o + 3] = u32::from(b3);
}

// The step of every stretch: eight bytes, tested together and copied if each is below 80; else those in front of one that is not. How many.
// The first is stored ahead of the others: behind a store the bytes are read anew, so that the test can read them as one number.
fn copy_eight(chunk: &[u8], at: usize, room: &mut [u32], o: usize) -> usize
    requires { (Ready chunk.now at room.old o) × (at + 8 ≤ length chunk.now) }
    ensures { (Copied chunk.now at result o room.old room.new) × (Begins chunk.now at result) × (result ≤ 8) }
{
    if 0x80 <= joined(&chunk[at..at + 8]) {
        return copy_front(&*chunk, at, room, o);
    }
    room[o] = u32::from(chunk[at]);
    copy_four(&*chunk, at, room, o);
    copy_four(&*chunk, at + 4, room, o + 4);
    8
}

// Copies bytes below 80 while there are eight; how many.
fn copy_eights(chunk: &[u8], from: usize, room: &mut [u32], place: usize) -> usize
    requires { (Ready chunk.now from room.old place) × (from + 8 ≤ length chunk.now) }
    ensures { (Copied chunk.now from result place room.old room.new) × Begins chunk.now from result }
{
    let n = chunk.len() - from;
    for j in 0..n / 8 {
        let k = j * 8;
        let c = copy_eight(&*chunk, from + k, room, place + k);
        if c < 8 {
            return k + c;
        }
    }
    n / 8 * 8
}

// Copies n bytes, which are below 80.
fn copy_bytes(chunk: &[u8], from: usize, n: usize, room: &mut [u32], place: usize)
    requires { (Ready chunk.now from room.old place) × (from + n ≤ length chunk.now) × ((j : ℕ) → j < n → get_or chunk.now (from + j) 0 < 0x80) }
    ensures { Copied chunk.now from n place room.old room.new }
{
    for k in 0..n {
        room[place + k] = u32::from(chunk[from + k]);
    }
}

// Copies 192 bytes if each is below 80, and else none; did it?
fn copy_block(chunk: &[u8], from: usize, room: &mut [u32], place: usize) -> bool
    requires { (Ready chunk.now from room.old place) × (from + 192 ≤ length chunk.now) }
    ensures { Copied chunk.now from (result then 192 else 0) place room.old room.new }
{
    if 0x80 <= joined(&chunk[from..from + 192]) {
        return false;
    }
    copy_bytes(&*chunk, from, 192, room, place);
    true
}

// Copies bytes below 80 from a place on; how many. It may stop before another, and copies none where no run can begin.
pub fn copy_ascii(chunk: &[u8], from: usize, room: &mut [u32], place: usize) -> usize
    ensures { (Copied chunk.now from result place room.old room.new)
        × (Ready chunk.now from room.old place → Begins chunk.now from result) }
{
    if !ready(chunk.len(), from, room.len(), place) {
        return 0;
    }
    let n = chunk.len() - from;
    if n < 8 {
        copy_each(&*chunk, from, room, place)
    } else {
        copy_eights(&*chunk, from, room, place)
    }
}

// A stretch of ASCII: its bytes, and the line feeds among them.
#[derive(Clone, Copy)]
pub struct Stretch {
    pub length: usize,
    pub lines: usize,
}

// Copies bytes below 80 in blocks of 192, each tested, copied and counted while it is near.
fn count_blocks(chunk: &[u8], from: usize, room: &mut [u32], place: usize) -> Stretch
    requires { Ready chunk.now from room.old place }
    ensures { (Copied chunk.now from result.length place room.old room.new)
        × (result.lines ≡ line_feeds (part chunk.now from result.length)) }
{
    let n = chunk.len() - from;
    let mut lines = 0;
    for j in 0..n / 192 {
        let k = j * 192;
        if !copy_block(&*chunk, from + k, room, place + k) {
            return Stretch { length: k, lines };
        }
        lines += in_block(&*chunk, from + k);
    }
    Stretch {
        length: n / 192 * 192,
        lines,
    }
}

// Copies bytes below 80 in blocks, and what is left of them as any stretch, with their line feeds.
fn count_stretch(chunk: &[u8], from: usize, room: &mut [u32], place: usize) -> Stretch
    requires { Ready chunk.now from room.old place }
    ensures { (Copied chunk.now from result.length place room.old room.new)
        × (result.lines ≡ line_feeds (part chunk.now from result.length)) }
{
    let a = count_blocks(&*chunk, from, room, place);
    let at = from + a.length;
    let k = copy_ascii(&*chunk, at, room, place + a.length);
    let lines = in_bytes(&*chunk, at, at + k);
    Stretch {
        length: a.length + k,
        lines: a.lines + lines,
    }
}

// Copies bytes below 80 from a place on, with their line feeds. It may stop before another, and copies none where no run can begin.
pub fn count_ascii(chunk: &[u8], from: usize, room: &mut [u32], place: usize) -> Stretch
    ensures { (Copied chunk.now from result.length place room.old room.new)
        × (result.lines ≡ line_feeds (part chunk.now from result.length)) }
{
    if !ready(chunk.len(), from, room.len(), place) || chunk.len() == from || 0x80 <= chunk[from] {
        return Stretch {
            length: 0,
            lines: 0,
        };
    }
    count_stretch(&*chunk, from, room, place)
}
