// The encodings that write pairs, ISO-2022-JP with a state. In html mode an unwritable scalar is a reference to the code point that its
// error names.

ghost use Rattle.std.specs.Prelude.{◌≡◌, true, List, ℕ, ◌+◌, ◌≤◌, ◌<◌, length, get_or, IfSome};
ghost use Rattle.std.proofs.lemmas.List.Edits.{sets};
ghost use Rattle.standard.specs.Base.{◌then◌else◌};
ghost use Rattle.standard.specs.Machine.{tokens};
ghost use Rattle.reverse_index_spec.specs.ReverseIndex.{look_up};
ghost use Rattle.pair_writers.specs.Fours.{Ordered};
ghost use Rattle.pair_writers.specs.Pairs.{bytes_of, told, pair_encode, floor_of, bytes_in, cells_of, Ready};
ghost use Rattle.standard.specs.Ones.{One as Encoded};
ghost use Rattle.encoder_spec.specs.Writing.{writing};
ghost use Rattle.encoder.specs.WriterCode.{Keeps, Stays, Running, pair_writing, Space, Wrote};

use crate::{escapes, references, room};
use encoder_spec::Written;
use pair_writers::One;

// An index behind some scalars, and the place behind their bytes.
#[derive(Clone, Copy)]
struct Reached {
    index: usize,
    written: usize,
}

// The bytes of a scalar; ASCII without a call.
fn one_of(
    encoding: u8,
    table: &[u32],
    links: &[u32],
    second: &[u32],
    ordered: bool,
    slots: &[u16],
    c: u32,
) -> One
    requires { Ready encoding table.now links.now second.now slots.now × Ordered ordered second.now }
    ensures { told result ≡ pair_encode encoding (look_up table.now links.now) second.now c }
{
    if c < 0x80 {
        return pair_writers::ascii(encoding, c as u8);
    }
    pair_writers::bytes_of(encoding, table, links, second, ordered, slots, c)
}

// The number in the slot of a scalar, where it is its bytes.
fn kept(slots: &[u16], c: u32) -> Option<u16>
    ensures { IfSome result (λ v. (256 ≤ v) × (length slots.now ≡ 0x10000) × (v ≡ get_or slots.now c 0)) }
{
    if slots.len() != 65536 {
        return None;
    }
    match slots.get(c as usize) {
        Some(v) if 256 <= *v => Some(*v),
        _ => None,
    }
}

// From which number on a slot has two bytes.
fn floor(encoding: u8) -> u16
    ensures { result ≡ floor_of encoding }
{
    if encoding == 33 { 256 } else { 0x8000 }
}

// The bytes of a number in a slot.
fn recalled(encoding: u8, v: u16) -> One
    ensures { told result ≡ tokens (bytes_in encoding v) }
{
    if v < floor(encoding) {
        One::Byte((v / 256) as u8)
    } else {
        One::Two([(v / 256) as u8, (v % 256) as u8])
    }
}

// Two bytes of a scalar, put into its slot where there is one.
fn remember(encoding: u8, slots: &mut [u16], c: u32, one: One)
    ensures { Keeps encoding slots.old c one slots.new }
{
    let One::Two(bytes) = one else {
        return;
    };
    let v = u16::from(bytes[0]) * 256 + u16::from(bytes[1]);
    if slots.len() == 65536 && c <= 0xFFFF && floor(encoding) <= v {
        slots[c as usize] = v;
    }
}

// The bytes of a scalar, by its slot where that has them.
fn one_by(
    encoding: u8,
    table: &[u32],
    links: &[u32],
    second: &[u32],
    ordered: bool,
    slots: &mut [u16],
    c: u32,
) -> One
    requires { Ready encoding table.now links.now second.now slots.old × Ordered ordered second.now }
    ensures { (told result ≡ pair_encode encoding (look_up table.now links.now) second.now c) ×
        Ready encoding table.now links.now second.now slots.new }
{
    if let Some(v) = kept(slots, c) {
        return recalled(encoding, v);
    }
    let one = one_of(encoding, table, links, second, ordered, slots, c);
    remember(encoding, slots, c, one);
    one
}

// One of two bytes, and a place one or two further: by functions of their own, since written out in the caller they are one branch.
fn choose(first: bool, a: u8, b: u8) -> u8
    ensures { result ≡ (first then a else b) }
{
    if first { a } else { b }
}

fn behind(two: bool, at: usize) -> usize
    requires { at + 2 < 0x10000000000000000 }
    ensures { result ≡ (two then at + 2 else at + 1) }
{
    if two { at + 2 } else { at + 1 }
}

// The bytes of a number in a slot, written from a place on; the place behind them. The second cell is stored in any case, as it was where
// there is one byte: no branch has to foresee the count.
fn put_kept(room: &mut [u8], at: usize, encoding: u8, v: u16) -> usize
    requires { at + 2 ≤ length room.old }
    ensures { (result ≡ at + length (bytes_in encoding v)) × (room.new ≡ sets room.old at (bytes_in encoding v)) }
{
    let two = floor(encoding) <= v;
    room[at] = (v / 256) as u8;
    room[at + 1] = choose(two, (v % 256) as u8, room[at + 1]);
    behind(two, at)
}

// Does a scalar that is written by its slot leave the state as it is?
fn stays(encoding: u8, state: u8) -> bool
    ensures { result ≡ true → (encoding ≡ 33 → state ≡ 2) }
{
    encoding != 33 || state == 2
}

// Scalars whose slots have their bytes, from an index on, written from a place on: as far as they go. A part of its caller, where it is known
// whether the encoding is ISO-2022-JP, in which every number has two bytes.
#[inline(always)]
fn run_by(
    encoding: u8,
    state: u8,
    slots: &[u16],
    scalars: &[u32],
    from: usize,
    room: &mut [u8],
    place: usize,
) -> Reached
    requires { (from ≤ length scalars.now) × (place ≤ length room.old) }
    ensures { (from ≤ result.index) × (result.index ≤ length scalars.now) ×
        ((one : ℕ → ℕ → Encoded) (mode begin : ℕ) (first : List ℕ) → Stays encoding state slots.now one →
        Space (writing one mode begin scalars.now) first →
        Running one mode begin scalars.now first room.old from place state →
        Running one mode begin scalars.now first room.new result.index result.written state) }
{
    let mut written = place;
    if !stays(encoding, state) {
        return Reached {
            index: from,
            written,
        };
    }
    for index in from..scalars.len() {
        let Some(v) = kept(slots, scalars[index]) else {
            return Reached { index, written };
        };
        if room.len() - written < 2 {
            return Reached { index, written };
        }
        written = put_kept(room, written, encoding, v);
    }
    Reached {
        index: scalars.len(),
        written,
    }
}

// The same, with a loop of its own for ISO-2022-JP.
fn run(
    encoding: u8,
    state: u8,
    slots: &[u16],
    scalars: &[u32],
    from: usize,
    room: &mut [u8],
    place: usize,
) -> Reached
    requires { (from ≤ length scalars.now) × (place ≤ length room.old) }
    ensures { (from ≤ result.index) × (result.index ≤ length scalars.now) ×
        ((one : ℕ → ℕ → Encoded) (mode begin : ℕ) (first : List ℕ) → Stays encoding state slots.now one →
        Space (writing one mode begin scalars.now) first →
        Running one mode begin scalars.now first room.old from place state →
        Running one mode begin scalars.now first room.new result.index result.written state) }
{
    match encoding {
        33 => run_by(33, state, slots, scalars, from, room, place),
        _ => run_by(encoding, state, slots, scalars, from, room, place),
    }
}

// How many bytes.
fn size(one: One) -> usize
    ensures { (result ≡ length (bytes_of one)) × (result ≤ 4) }
{
    match one {
        One::Unwritable(_) => 0,
        One::Byte(_) => 1,
        One::Two(_) => 2,
        One::Four(_) => 4,
    }
}

// The bytes, written from a place on; the place behind them.
fn put(room: &mut [u8], at: usize, one: One) -> usize
    requires { at + length (bytes_of one) ≤ length room.old }
    ensures { (result ≡ at + length (bytes_of one)) × (room.new ≡ sets room.old at (bytes_of one)) }
{
    match one {
        One::Unwritable(_) => at,
        One::Byte(b) => room::put(room, at, [b]),
        One::Two(bytes) => room::put(room, at, bytes),
        One::Four(bytes) => room::put(room, at, bytes),
    }
}

// How many bytes are written of the scalars from a state, with slots.
fn count_by(
    encoding: u8,
    mode: u8,
    state: u8,
    scalars: &[u32],
    table: &[u32],
    links: &[u32],
    second: &[u32],
    ordered: bool,
    slots: &mut [u16],
) -> usize
    requires { (length scalars.now ≤ 16384) × Ready encoding table.now links.now second.now slots.old × Ordered ordered second.now }
    ensures { result ≡ length (pair_writing (look_up table.now links.now)
        encoding mode state second.now scalars.now).bytes }
{
    let mut s = state;
    let mut n: usize = 0;
    for c in scalars {
        let one = one_by(encoding, table, links, second, ordered, slots, *c);
        let to = pair_writers::state_for(encoding, s, *c, one);
        n += escapes::size(s, to);
        s = to;
        match one {
            One::Unwritable(_) if mode == 1 => return n,
            One::Unwritable(named) => n += references::size(named),
            _ => n += size(one),
        }
    }
    n
}

// How many scalars are not ASCII. A loop with no return in it takes several at once.
fn others(scalars: &[u32]) -> u32
    requires { length scalars.now ≤ 16384 }
    ensures { result ≤ length scalars.now }
{
    let mut n: u32 = 0;
    for c in scalars {
        n += u32::from(0x80 <= *c);
    }
    n
}

// From how many scalars that are not ASCII on slots save more time than they cost, without a reverse index and beside one. gb18030 has
// many a scalar that its table has not.
fn least(encoding: u8, links: &[u32]) -> u32
    ensures { result ≤ 1024 }
{
    if links.is_empty() {
        32
    } else if encoding == 30 {
        64
    } else {
        1024
    }
}

// The same, with filled slots. The array stands apart: its room on the stack costs the calls without slots nothing.
fn count_filled(
    encoding: u8,
    mode: u8,
    state: u8,
    scalars: &[u32],
    table: &[u32],
    links: &[u32],
    second: &[u32],
) -> usize
    requires { (length scalars.now ≤ 16384) × (length table.now ≡ cells_of encoding) }
    ensures { result ≡ length (pair_writing (look_up table.now links.now)
        encoding mode state second.now scalars.now).bytes }
{
    let mut slots = [0u16; 65536];
    pair_writers::fill(encoding, table, &mut slots);
    if pair_writers::ordered(encoding, second) {
        return count_by(
            encoding, mode, state, scalars, table, links, second, true, &mut slots,
        );
    }
    count_by(
        encoding, mode, state, scalars, table, links, second, false, &mut slots,
    )
}

// The same, with slots where they save more time than they cost.
pub(crate) fn count(
    encoding: u8,
    mode: u8,
    state: u8,
    scalars: &[u32],
    table: &[u32],
    links: &[u32],
    second: &[u32],
) -> usize
    requires { (length scalars.now ≤ 16384) × (length table.now ≡ cells_of encoding) }
    ensures { result ≡ length (pair_writing (look_up table.now links.now)
        encoding mode state second.now scalars.now).bytes }
{
    if least(encoding, links) <= others(scalars) {
        return count_filled(encoding, mode, state, scalars, table, links, second);
    }
    let mut none = [0u16; 1];
    count_by(
        encoding, mode, state, scalars, table, links, second, false, &mut none,
    )
}

// The scalars written from a state into a room that has space for all their bytes, with slots.
fn write_by(
    encoding: u8,
    mode: u8,
    state: u8,
    scalars: &[u32],
    table: &[u32],
    links: &[u32],
    second: &[u32],
    ordered: bool,
    slots: &mut [u16],
    room: &mut [u8],
) -> Written
    requires { Ready encoding table.now links.now second.now slots.old ×
        Space (pair_writing (look_up table.now links.now) encoding mode state second.now scalars.now) room.old × Ordered ordered second.now }
    ensures { Wrote (pair_writing (look_up table.now links.now)
        encoding mode state second.now scalars.now)
        room.old result room.new }
{
    let mut s = state;
    let mut o: usize = 0;
    let mut i: usize = 0;
    // No `for`: a run takes several scalars in one turn.
    while i < scalars.len() {
        let c = scalars[i];
        if pair_writers::plain(encoding, s, c) {
            room[o] = c as u8;
            o += 1;
            i += 1;
            continue;
        }
        let r = run(encoding, s, slots, scalars, i, room, o);
        o = r.written;
        if i < r.index {
            i = r.index;
            continue;
        }
        let one = one_by(encoding, table, links, second, ordered, slots, c);
        let to = pair_writers::state_for(encoding, s, c, one);
        o = escapes::put(room, o, s, to);
        s = to;
        match one {
            One::Unwritable(_) if mode == 1 => {
                return Written {
                    written: o,
                    index: i,
                    refusal: 11,
                    state: s,
                };
            }
            One::Unwritable(named) => o = references::put(room, o, named),
            _ => o = put(room, o, one),
        }
        i += 1;
    }
    Written {
        written: o,
        index: 0,
        refusal: 0,
        state: s,
    }
}

// The same, with filled slots, apart as for counting.
fn write_filled(
    encoding: u8,
    mode: u8,
    state: u8,
    scalars: &[u32],
    table: &[u32],
    links: &[u32],
    second: &[u32],
    room: &mut [u8],
) -> Written
    requires table_len { length table.now ≡ cells_of encoding }
    requires space { Space (pair_writing (look_up table.now links.now) encoding mode state second.now scalars.now) room.old }
    ensures { Wrote (pair_writing (look_up table.now links.now)
        encoding mode state second.now scalars.now)
        room.old result room.new }
{
    let ordered = pair_writers::ordered(encoding, second);
    let mut slots = [0u16; 65536];
    pair_writers::fill(encoding, table, &mut slots);
    write_by(
        encoding, mode, state, scalars, table, links, second, ordered, &mut slots, room,
    )
}

// The same, with slots where they save more time than they cost.
pub(crate) fn write(
    encoding: u8,
    mode: u8,
    state: u8,
    scalars: &[u32],
    table: &[u32],
    links: &[u32],
    second: &[u32],
    room: &mut [u8],
) -> Written
    requires scalars_len_bound { (length scalars.now ≤ 16384) × (length table.now ≡ cells_of encoding) }
    requires space { Space (pair_writing (look_up table.now links.now) encoding mode state second.now scalars.now) room.old }
    ensures { Wrote (pair_writing (look_up table.now links.now)
        encoding mode state second.now scalars.now)
        room.old result room.new }
{
    if least(encoding, links) <= others(scalars) {
        return write_filled(encoding, mode, state, scalars, table, links, second, room);
    }
    let mut none = [0u16; 1];
    write_by(
        encoding, mode, state, scalars, table, links, second, false, &mut none, room,
    )
}
