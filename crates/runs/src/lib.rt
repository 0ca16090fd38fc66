// What runs share: a place, the guard, the sequence at a place, and stretches of ASCII.
// A run goes over part of a chunk, sequence after sequence. It may stop anywhere; what it has read stands in the room.
// A slice that is passed on is lent anew (`&*`): docs/DECISIONS.md, 45.
#![tactic(auto)]

pub mod ascii;

ghost use Rattle.std.specs.Prelude.{◌≡◌, eqb, drop, IfSome, IsSomeAnd};
ghost use Rattle.standard.specs.Encodings.{family, lent};
ghost use Rattle.standard.specs.Sequence.{shift, plain};
ghost use Rattle.standard.specs.Next.{next};
ghost use Rattle.sequences.specs.Code.{item_of};
ghost use Rattle.runs.specs.Run.{ready, ready_plain, left, Gives};

use sequences::{Out, Sequence, next};

// Where a run has come to: its place in the chunk and in the room, and the shift. The flag is a number, as in the C record.
#[derive(Clone, Copy)]
pub struct Place {
    pub at: usize,
    pub written: usize,
    pub state: u8,
    pub flag: u8,
}

// Where a run has come to, with the line feeds that it wrote.
#[derive(Clone, Copy)]
pub struct Counted {
    pub at: usize,
    pub written: usize,
    pub lines: usize,
    pub state: u8,
    pub flag: u8,
}

// The guard of every run: is there space for a scalar of each byte that is left, and are there not too many?
pub fn ready(bytes: usize, from: usize, space: usize, place: usize) -> bool
    ensures { result ≡ ready bytes from space place }
{
    if bytes < from {
        return false;
    }
    if 65536 < bytes {
        return false;
    }
    if space < place {
        return false;
    }
    bytes - from <= space - place
}

// The guard of a run that begins without a shift.
pub fn ready_plain(bytes: usize, space: usize, p: Place) -> bool
    ensures { result ≡ ready_plain bytes space p }
{
    if p.state != 0 {
        return false;
    }
    if p.flag != 0 {
        return false;
    }
    ready(bytes, p.at, space, p.written)
}

// The scalar of an ASCII byte.
pub fn wide(b: u8) -> u32
    ensures { result ≡ b }
{
    b as u32
}

// The sequence at a place of a chunk; none where more bytes are wanted, and where fewer than four are left.
pub fn next_at(
    t1: &[u32],
    t2: &[u32],
    encoding: u8,
    state: u8,
    flag: u8,
    chunk: &[u8],
    i: usize,
) -> Option<Sequence>
    ensures { IfSome result (λ q.
        item_of q ≡ next (lent t1.now t2.now) (family encoding) (shift state (eqb flag 1)) (drop i chunk.now)) }
{
    if chunk.len() < i {
        return None;
    }
    if chunk.len() - i < 4 {
        return None;
    }
    next(
        &*t1,
        &*t2,
        encoding,
        state,
        flag,
        chunk[i],
        chunk[i + 1],
        chunk[i + 2],
        chunk[i + 3],
        4,
    )
}

// The only scalar of a sequence, U+FFFD for an error in a mode other than 1; none for another, and where more bytes are wanted.
pub fn scalar_of(mode: u8, q: Option<Sequence>) -> Option<u32>
    ensures { IfSome result (λ c. IsSomeAnd q (λ s. Gives mode (item_of s) s.width (left s) c)) }
{
    match q?.out {
        Out::One(c) => Some(c),
        Out::Error if mode != 1 => Some(0xFFFD),
        _ => None,
    }
}

// The same of a sequence that leaves no shift; none for another.
pub fn plain_scalar_of(mode: u8, q: Option<Sequence>) -> Option<u32>
    ensures { IfSome result (λ c. IsSomeAnd q (λ s. Gives mode (item_of s) s.width plain c)) }
{
    let s = q?;
    if s.shift.state != 0 || s.shift.flag {
        return None;
    }
    scalar_of(mode, q)
}
