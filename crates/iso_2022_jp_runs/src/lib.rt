// Runs of ISO-2022-JP.
#![tactic(auto)]

ghost use Rattle.std.specs.Prelude.{◌≡◌, Bool, true, false, ◌||◌, List, ◌∷◌, [], ℕ, ◌+◌, ◌-◌, ◌≤◌, ◌<◌, eqb, length, drop, get_or, IfSome};
ghost use Rattle.standard.specs.Encodings.{Tables, ISO-2022-JP, lent};
ghost use Rattle.standard.specs.Sequence.{text, item, shift};
ghost use Rattle.standard.specs.Sequences.Iso2022Jp.{escaped, byte_out};
ghost use Rattle.standard.specs.Decode.{given};
ghost use Rattle.standard.specs.Next.{next};
ghost use Rattle.runs.specs.Run.{Run, Ready, placed};

use index::cell;
use layouts::iso_2022_jp_pointer;
use runs::{Place, next_at, ready, scalar_of, wide};
use sequences::Out;

// A run of ISO-2022-JP.
pub fn iso_2022_jp_run(
    mode: u8,
    chunk: &[u8],
    t1: &[u32],
    t2: &[u32],
    room: &mut [u32],
    p: Place,
) -> Place
    ensures { Run (lent t1.now t2.now) ISO-2022-JP mode chunk.now p result room.old room.new }
{
    if !ready(chunk.len(), p.at, room.len(), p.written) {
        return p;
    }
    sequences(mode, chunk, t1, t2, room, p)
}

// Stretches of one state, and between them sequence after sequence, while four bytes are left.
fn sequences(mode: u8, chunk: &[u8], t1: &[u32], t2: &[u32], room: &mut [u32], p: Place) -> Place
    requires { Ready chunk.now p.at room.old p.written }
    ensures { Run (lent t1.now t2.now) ISO-2022-JP mode chunk.now p result room.old room.new }
{
    let mut p = p;
    loop {
        let r = stretch(mode, chunk, t1, t2, room, p);
        if let Some(state) = escape_at(chunk, r.at, r.flag) {
            p = Place {
                at: r.at + 3,
                written: r.written,
                state,
                flag: 1,
            };
            continue;
        }
        let Some(q) = next_at(t1, t2, 33, r.state, r.flag, chunk, r.at) else {
            return r;
        };
        let at = r.at + q.width as usize;
        let flag = u8::from(q.shift.flag);
        if let Out::Nothing = q.out {
            p = Place {
                at,
                written: r.written,
                state: q.shift.state,
                flag,
            };
            continue;
        }
        let Some(c) = scalar_of(mode, Some(q)) else {
            return r;
        };
        room[r.written] = c;
        p = Place {
            at,
            written: r.written + 1,
            state: q.shift.state,
            flag,
        };
    }
}

// The state that an escape at a place leads to; none where there is no escape, and where it is an error or stays for `next`.
fn escape_at(chunk: &[u8], i: usize, flag: u8) -> Option<u8>
    ensures { IfSome result (λ s. (i + 3 ≤ length chunk.now) × ((t : Tables) (state : ℕ) →
        next t ISO-2022-JP (shift state (eqb flag 1)) (drop i chunk.now) ≡ item 3 (shift s true) (text []))) }
{
    if flag == 1 {
        return None;
    }
    if chunk.len() < i {
        return None;
    }
    if chunk.len() - i < 3 {
        return None;
    }
    if chunk[i] != 0x1B {
        return None;
    }
    escape_of(chunk[i + 1], chunk[i + 2])
}

// The same by the second and third byte of an escape: to ASCII and to the state of lead bytes; the rare ones stay for `next`.
fn escape_of(c: u8, d: u8) -> Option<u8>
    ensures { IfSome result (λ s. (eqb c 0x24 || eqb c 0x28 ≡ true) × (s < 4) × (escaped c d ≡ s)) }
{
    if d != 0x42 {
        return None;
    }
    if c == 0x24 {
        return Some(3);
    }
    if c == 0x28 {
        return Some(0);
    }
    None
}

// Characters of one state, as far as they go without an escape or an error that stops.
fn stretch(mode: u8, chunk: &[u8], t1: &[u32], t2: &[u32], room: &mut [u32], p: Place) -> Place
    requires { Ready chunk.now p.at room.old p.written }
    ensures { Run (lent t1.now t2.now) ISO-2022-JP mode chunk.now p result room.old room.new }
{
    if p.state == 0 {
        let r = eights(mode, chunk, p.at, room, p.written, p.flag);
        return bytes(mode, chunk, r.at, room, r.written, r.flag);
    }
    if p.state == 3 {
        return pairs(mode, chunk, t1, p.at, room, p.written, p.flag);
    }
    p
}

// 1 for the first byte of an escape, 0 for another.
fn one_if_escape(b: u8) -> u8
    ensures { b ≡ 0x1B → 1 ≤ result }
{
    u8::from(b == 0x1B)
}

// Is none of eight bytes the first of an escape? They are tested together, without a branch for each.
fn no_escape(chunk: &[u8], at: usize) -> bool
    requires { at + 8 ≤ length chunk.now }
    ensures { result ≡ true → (j : ℕ) → j < 8 → get_or chunk.now (at + j) 0 ≡ 0x1B → ⊥ }
{
    let mut all: u8 = 0;
    for k in 0..8 {
        all = all | one_if_escape(chunk[at + k]);
    }
    all == 0
}

// The scalars of four bytes in the state of ASCII. All are read before one is stored: so the compiler reads and stores them at once.
fn four_scalars(chunk: &[u8], at: usize, room: &mut [u32], o: usize)
    requires { (Ready chunk.now at room.old o) × (at + 4 ≤ length chunk.now)
        × ((j : ℕ) → j < 4 → get_or chunk.now (at + j) 0 ≡ 0x1B → ⊥) }
    ensures { (t : Tables) (mode flag : ℕ) → (mode ≡ 1 → ⊥) →
        Run t ISO-2022-JP mode chunk.now (placed at o 0 flag) (placed (at + 4) (o + 4) 0 0) room.old room.new }
{
    let b0 = chunk[at];
    let b1 = chunk[at + 1];
    let b2 = chunk[at + 2];
    let b3 = chunk[at + 3];
    room[o] = byte_scalar(b0);
    room[o + 1] = byte_scalar(b1);
    room[o + 2] = byte_scalar(b2);
    room[o + 3] = byte_scalar(b3);
}

// Bytes in the state of ASCII, eight at a time, as far as no escape begins among them. In mode 1, where an error stops, none.
fn eights(mode: u8, chunk: &[u8], from: usize, room: &mut [u32], place: usize, flag: u8) -> Place
    requires { Ready chunk.now from room.old place }
    ensures { (t : Tables) → Run t ISO-2022-JP mode chunk.now (placed from place 0 flag) (placed result.at result.written 0 result.flag)
        room.old room.new }
{
    let n = chunk.len();
    let mut i = from;
    let mut o = place;
    let mut f = flag;
    while eight_left(mode, n - i) {
        if !no_escape(chunk, i) {
            break;
        }
        four_scalars(chunk, i, room, o);
        four_scalars(chunk, i + 4, room, o + 4);
        i += 8;
        o += 8;
        f = 0;
    }
    Place {
        at: i,
        written: o,
        state: 0,
        flag: f,
    }
}

// Are eight bytes left, in a mode other than 1?
fn eight_left(mode: u8, left: usize) -> bool
    ensures { result ≡ true → (mode ≡ 1 → ⊥) × (8 ≤ left) }
{
    if mode == 1 {
        return false;
    }
    8 <= left
}

// Bytes in the state of ASCII.
fn bytes(mode: u8, chunk: &[u8], from: usize, room: &mut [u32], place: usize, flag: u8) -> Place
    requires { Ready chunk.now from room.old place }
    ensures { (t : Tables) → Run t ISO-2022-JP mode chunk.now (placed from place 0 flag) result room.old room.new }
{
    let n = chunk.len();
    let mut i = from;
    let mut o = place;
    let mut f = flag;
    while i < n {
        let b = chunk[i];
        if !one_scalar(mode, b) {
            break;
        }
        room[o] = byte_scalar(b);
        i += 1;
        o += 1;
        f = 0;
    }
    Place {
        at: i,
        written: o,
        state: 0,
        flag: f,
    }
}

// Pairs in the state of lead bytes.
fn pairs(
    mode: u8,
    chunk: &[u8],
    index: &[u32],
    from: usize,
    room: &mut [u32],
    place: usize,
    flag: u8,
) -> Place
    requires { Ready chunk.now from room.old place }
    ensures { (second : List ℕ) → Run (lent index.now second) ISO-2022-JP mode chunk.now (placed from place 3 flag) result room.old room.new }
{
    let n = chunk.len();
    let mut i = from;
    let mut o = place;
    let mut f = flag;
    while 2 <= n - i {
        let Some(c) = pair_code(index, chunk[i], chunk[i + 1]) else {
            break;
        };
        room[o] = c;
        i += 2;
        o += 1;
        f = 0;
    }
    Place {
        at: i,
        written: o,
        state: 3,
        flag: f,
    }
}

// The code point of a pair.
fn pair_code(index: &[u32], lead: u8, trail: u8) -> Option<u32>
    ensures { IfSome result (λ c. (second : List ℕ) (flag : Bool) (xs : List ℕ) →
        next (lent index.now second) ISO-2022-JP (shift 3 flag) (lead ∷ trail ∷ xs) ≡ item 2 (shift 3 false) (text (c ∷ []))) }
{
    let p = iso_2022_jp_pointer(lead, trail);
    if 32768 <= p {
        return None;
    }
    let c = cell(index, p);
    if c == 0 {
        return None;
    }
    Some(c)
}

// Does a byte give one scalar, in the state of ASCII? In mode 1 an error gives none.
fn one_scalar(mode: u8, b: u8) -> bool
    ensures { result ≡ true → (b ≡ 0x1B → ⊥) × (mode ≡ 1 → (b < 0x80) × (b ≡ 0x0E → ⊥) × (b ≡ 0x0F → ⊥)) }
{
    if b == 0x1B {
        return false;
    }
    if mode != 1 {
        return true;
    }
    if b / 2 == 7 {
        return false;
    }
    b < 0x80
}

// The scalar of a byte in the state of ASCII, U+FFFD for an error.
fn byte_scalar(b: u8) -> u32
    ensures { given (byte_out 0 b) ≡ result ∷ [] }
{
    if b / 2 == 7 {
        return 0xFFFD;
    }
    if 0x80 <= b {
        return 0xFFFD;
    }
    wide(b)
}
