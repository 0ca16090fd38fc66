// Runs of UTF-8.
// A slice that is passed on is lent anew (`&*`): docs/DECISIONS.md, 45.
#![tactic(auto)]

ghost use Rattle.std.specs.Prelude.{◌≡◌, true, List, ◌∷◌, ℕ, ◌+◌, ◌-◌, ◌*◌, ◌≤◌, IfSome};
ghost use Rattle.standard.specs.Base.{within};
ghost use Rattle.standard.specs.Encodings.{Tables, UTF-8};
ghost use Rattle.standard.specs.Sequence.{scalar, bad};
ghost use Rattle.standard.specs.Sequences.Utf8.{utf8};
ghost use Rattle.runs.specs.Run.{Run, Ready, placed};

use layouts::within;
use runs::ascii::copy_ascii;
use runs::{Place, plain_scalar_of, ready_plain};
use sequences::utf8::{high, lead_length, low, utf8};

// The scalar of two bytes, if they are a sequence.
// Here and below the length of a lead is compared by `<` on both sides: the compiler makes one range test of the byte of the two.
fn two(b0: u8, b1: u8) -> Option<u32>
    ensures { IfSome result (λ c. (xs : List ℕ) → utf8 (b0 ∷ b1 ∷ xs) ≡ scalar 2 c) }
{
    if lead_length(b0) < 2 {
        return None;
    }
    if 2 < lead_length(b0) {
        return None;
    }
    if within(0x80, b1, 0xBF) {
        return Some(((b0 - 0xC0) as u32) * 64 + ((b1 - 0x80) as u32));
    }
    None
}

// Of three bytes. A second byte that the first does not allow shows in the scalar: it is below 800, or a surrogate.
fn three(b0: u8, b1: u8, b2: u8) -> Option<u32>
    ensures { IfSome result (λ c. (xs : List ℕ) → utf8 (b0 ∷ b1 ∷ b2 ∷ xs) ≡ scalar 3 c) }
{
    if lead_length(b0) < 3 {
        return None;
    }
    if 3 < lead_length(b0) {
        return None;
    }
    if !within(0x80, b1, 0xBF) {
        return None;
    }
    if !within(0x80, b2, 0xBF) {
        return None;
    }
    let c = three_bits(b0, b1, b2);
    if c < 0x800 {
        return None;
    }
    if c < 0xD800 {
        return Some(c);
    }
    if c <= 0xDFFF {
        return None;
    }
    Some(c)
}

// The number that three bytes have.
fn three_bits(b0: u8, b1: u8, b2: u8) -> u32
    requires { (0xE0 ≤ b0) × (b0 ≤ 0xEF) × (0x80 ≤ b1) × (b1 ≤ 0xBF) × (0x80 ≤ b2) }
    ensures { result ≡ (b0 - 0xE0) * 4096 + (b1 - 0x80) * 64 + (b2 - 0x80) }
{
    ((b0 - 0xE0) as u32) * 4096 + ((b1 - 0x80) as u32) * 64 + ((b2 - 0x80) as u32)
}

// Of four bytes.
fn four(b0: u8, b1: u8, b2: u8, b3: u8) -> Option<u32>
    ensures { IfSome result (λ c. (xs : List ℕ) → utf8 (b0 ∷ b1 ∷ b2 ∷ b3 ∷ xs) ≡ scalar 4 c) }
{
    if lead_length(b0) < 4 {
        return None;
    }
    if 4 < lead_length(b0) {
        return None;
    }
    if within(low(b0), b1, high(b0)) {
        return four_end(b0, b1, b2, b3);
    }
    None
}

// The third and the fourth byte of four.
fn four_end(b0: u8, b1: u8, b2: u8, b3: u8) -> Option<u32>
    requires { (0xF0 ≤ b0) × (0x80 ≤ b1) }
    ensures { IfSome result (λ c. (within 0x80 b2 0xBF ≡ true) × (within 0x80 b3 0xBF ≡ true)
        × (c ≡ (b0 - 0xF0) * 262144 + (b1 - 0x80) * 4096 + (b2 - 0x80) * 64 + (b3 - 0x80))) }
{
    if within(0x80, b2, 0xBF) {
        if within(0x80, b3, 0xBF) {
            return Some(
                ((b0 - 0xF0) as u32) * 262144
                    + ((b1 - 0x80) as u32) * 4096
                    + ((b2 - 0x80) as u32) * 64
                    + ((b3 - 0x80) as u32),
            );
        }
    }
    None
}

// Is the first of two bytes alone an error, which is replaced?
fn is_bad(mode: u8, b: u8, c: u8) -> bool
    requires { 0x80 ≤ b }
    ensures { result ≡ true → (mode ≡ 1 → ⊥) × ((xs : List ℕ) → utf8 (b ∷ c ∷ xs) ≡ bad 1) }
{
    if mode == 1 {
        return false;
    }
    if lead_length(b) == 0 {
        return true;
    }
    !within(low(b), c, high(b))
}

// ASCII, sequences of two to four bytes, and errors where they are replaced, while four bytes are left.
fn sequences(mode: u8, chunk: &[u8], from: usize, room: &mut [u32], place: usize) -> Place
    requires { Ready chunk.now from room.old place }
    ensures { (t : Tables) → Run t UTF-8 mode chunk.now (placed from place 0 0) result room.old room.new }
{
    let mut i = from;
    let mut o = place;
    while chunk.len() - i >= 4 {
        let b = chunk[i];
        if b < 0x80 {
            let k = copy_ascii(&*chunk, i, room, o);
            i += k;
            o += k;
            continue;
        }
        if let Some(c) = two(b, chunk[i + 1]) {
            room[o] = c;
            i += 2;
            o += 1;
            continue;
        }
        if let Some(c) = three(b, chunk[i + 1], chunk[i + 2]) {
            room[o] = c;
            i += 3;
            o += 1;
            continue;
        }
        if let Some(c) = four(b, chunk[i + 1], chunk[i + 2], chunk[i + 3]) {
            room[o] = c;
            i += 4;
            o += 1;
            continue;
        }
        if is_bad(mode, b, chunk[i + 1]) {
            room[o] = 0xFFFD;
            i += 1;
            o += 1;
            continue;
        }
        let Some(q) = utf8(b, chunk[i + 1], chunk[i + 2], chunk[i + 3], 4) else {
            break;
        };
        let Some(u) = plain_scalar_of(mode, Some(q)) else {
            break;
        };
        room[o] = u;
        o += 1;
        i += q.width as usize;
    }
    Place {
        at: i,
        written: o,
        state: 0,
        flag: 0,
    }
}

// A run of UTF-8, for any tables.
// Two calls keep the loop a function of its own, with its places in registers: what is called once becomes part of its caller.
pub fn utf8_run(mode: u8, chunk: &[u8], room: &mut [u32], p: Place) -> Place
    ensures { (t : Tables) → Run t UTF-8 mode chunk.now p result room.old room.new }
{
    if !ready_plain(chunk.len(), room.len(), p) {
        return p;
    }
    if mode == 1 {
        return sequences(1, &*chunk, p.at, room, p.written);
    }
    sequences(mode, &*chunk, p.at, room, p.written)
}
