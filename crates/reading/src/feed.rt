// The feed loop: sequence after sequence, from the bytes held and then the chunk.

ghost use Rattle.std.specs.Prelude.{◌≡◌, ◌&&◌, [], ◌++◌, ◌+◌, ◌-◌, ◌≤◌, ◌<◌, eqb, length, get_or, drop};
ghost use Rattle.standard.specs.Base.{line_feeds};
ghost use Rattle.standard.specs.Encodings.{family, lent};
ghost use Rattle.standard.specs.Sequence.{shift};
ghost use Rattle.standard.specs.Next.{next};
ghost use Rattle.standard.specs.Decode.{given};
ghost use Rattle.standard.specs.Choice.{spot, choose};
ghost use Rattle.sequences.specs.Code.{next_of, out_of, is_error};
ghost use Rattle.runs.specs.Run.{patch, placed};
ghost use Rattle.runs.specs.Counts.{Counts};
ghost use Rattle.reading.specs.Reading.{bytes_of, bit, leaves, past, chosen_of, behind_mark, at_spot, start_of, read_chunk};

use crate::choice::{Chosen, choose, reader};
use crate::run::{run, uncounted};
use crate::{Held, Left, Refusal, Stop};
use line_feeds::one_scalar;
use runs::{Counted, Place};
use sequences::{Out, Sequence, next};

// The byte at a place of the bytes held and then the chunk; 0 past their end.
fn byte_at(held: Held, chunk: &[u8], i: usize) -> u8
    requires { (held.count ≤ 3) × (i < 65544) }
    ensures { result ≡ get_or (bytes_of held ++ chunk.now) i 0 }
{
    let count = held.count as usize;
    if count <= i {
        let j = i - count;
        if j < chunk.len() {
            return chunk[j];
        }
        return 0;
    }
    match i {
        0 => held.first,
        1 => held.second,
        _ => held.third,
    }
}

// What a sequence gives, written from a place on; an error is U+FFFD. The place after it.
pub(crate) fn put(room: &mut [u32], written: usize, out: Out) -> usize
    requires { written + length (given (out_of out)) ≤ length room.old }
    ensures { (result ≡ written + length (given (out_of out))) × (room.new ≡ patch written (given (out_of out)) room.old) }
{
    match out {
        Out::Error => {
            room[written] = 0xFFFD;
            written + 1
        }
        Out::Nothing => written,
        Out::One(c) => {
            room[written] = c;
            written + 1
        }
        Out::Two(first, second) => {
            room[written] = first;
            room[written + 1] = second;
            written + 2
        }
    }
}

// The line feeds among what a sequence gives.
pub(crate) fn feeds(out: Out) -> usize
    ensures { result ≡ line_feeds (given (out_of out)) }
{
    match out {
        Out::Error => 0,
        Out::Nothing => 0,
        Out::One(c) => one_scalar(c) as usize,
        Out::Two(first, second) => one_scalar(first) as usize + one_scalar(second) as usize,
    }
}

// Does an error end the reading?
pub(crate) fn stops(mode: u8, out: Out) -> bool
    ensures { result ≡ (eqb mode 1 && is_error (out_of out)) }
{
    mode == 1 && out.is_error()
}

// 1 for 1, and 0 for any other number
fn bit(flag: u8) -> u8
    ensures { result ≡ bit (eqb flag 1) }
{
    u8::from(flag == 1)
}

// The sequence at a place of the bytes held and then the chunk; none where more bytes are wanted.
pub(crate) fn sequence_at(
    encoding: u8,
    held: Held,
    chunk: &[u8],
    t1: &[u32],
    t2: &[u32],
    at: usize,
    state: u8,
    flag: u8,
) -> Option<Sequence>
    requires { (held.count ≤ 3) × (length chunk.now ≤ 65536) × (at ≤ held.count + length chunk.now) }
    ensures { next_of result ≡ next (lent t1.now t2.now) (family encoding)
        (shift state (eqb flag 1)) (drop at (bytes_of held ++ chunk.now)) }
{
    let have = held.count as usize + chunk.len() - at;
    let b0 = byte_at(held, &*chunk, at);
    let b1 = byte_at(held, &*chunk, at + 1);
    let b2 = byte_at(held, &*chunk, at + 2);
    let b3 = byte_at(held, &*chunk, at + 3);
    next(&*t1, &*t2, encoding, state, flag, b0, b1, b2, b3, have)
}

// All sequences read: at most three bytes are left, and held.
pub(crate) fn holds(
    held: Held,
    chunk: &[u8],
    at: usize,
    stage: u8,
    state: u8,
    flag: u8,
    written: usize,
    lines: usize,
) -> Left
    requires { (held.count ≤ 3) × (length chunk.now ≤ 65536) × (at ≤ held.count + length chunk.now)
        × (held.count + length chunk.now - at ≤ 3) }
    ensures { result ≡ leaves written lines (spot stage (shift state (eqb flag 1))) (drop at (bytes_of held ++ chunk.now)) }
{
    let have = held.count as usize + chunk.len() - at;
    let first = byte_at(held, &*chunk, at);
    let second = byte_at(held, &*chunk, at + 1);
    let third = byte_at(held, &*chunk, at + 2);
    let kept = bit(flag);
    Left {
        written,
        lines,
        stage,
        state,
        flag: kept,
        held: Held {
            count: have as u8,
            first,
            second,
            third,
        },
    }
}

// No byte to read: nothing is written, and nothing held.
fn untouched(stage: u8, state: u8, flag: u8) -> Left
    ensures { result ≡ leaves 0 0 (spot stage (shift state (eqb flag 1))) [] }
{
    let kept = bit(flag);
    Left {
        written: 0,
        lines: 0,
        stage,
        state,
        flag: kept,
        held: Held::NONE,
    }
}

// A run from a place of the bytes held and then the chunk, once the bytes held are read.
fn run_from(
    encoding: u8,
    mode: u8,
    held: Held,
    chunk: &[u8],
    t1: &[u32],
    t2: &[u32],
    at: usize,
    room: &mut [u32],
    written: usize,
    state: u8,
    flag: u8,
) -> Counted
    requires { (held.count ≤ 3) × (length chunk.now ≤ 65536) × (at ≤ held.count + length chunk.now)
        × (held.count + length chunk.now - at + written ≤ length room.old) }
    ensures { Counts (lent t1.now t2.now) (family encoding) mode (bytes_of held ++ chunk.now)
        (placed at written state flag) result room.old room.new }
{
    let count = held.count as usize;
    let p = Place {
        at,
        written,
        state,
        flag,
    };
    if at < count {
        return uncounted(p);
    }
    if chunk.len() <= at - count {
        return uncounted(p);
    }
    let here = Place {
        at: at - count,
        written,
        state,
        flag,
    };
    let r = run(encoding, mode, &*chunk, &*t1, &*t2, room, here);
    let to = count + r.at;
    Counted {
        at: to,
        written: r.written,
        lines: r.lines,
        state: r.state,
        flag: r.flag,
    }
}

// Sequence after sequence behind a mark of so many bytes, a run at a time, until no whole one is left or an error ends it.
fn read_all(
    encoding: u8,
    mode: u8,
    stage: u8,
    held: Held,
    chunk: &[u8],
    t1: &[u32],
    t2: &[u32],
    mark: usize,
    room: &mut [u32],
    state: u8,
    flag: u8,
) -> Result<Left, Stop>
    requires { (held.count ≤ 3) × (length chunk.now ≤ 65536) × (length chunk.now + held.count ≤ length room.old)
        × (mark ≤ held.count + length chunk.now) }
    ensures { (result ≡ (past encoding mode stage state flag held mark
        (lent t1.now t2.now) chunk.now room.old).left)
        × (room.new ≡ (past encoding mode stage state flag held mark
        (lent t1.now t2.now) chunk.now room.old).room) }
{
    if mark == held.count as usize + chunk.len() {
        return Ok(untouched(stage, state, flag));
    }
    let mut at = mark;
    let mut s = state;
    let mut f = flag;
    let mut written: usize = 0;
    let mut lines: usize = 0;
    loop {
        let p = run_from(
            encoding, mode, held, &*chunk, &*t1, &*t2, at, room, written, s, f,
        );
        at = p.at;
        written = p.written;
        lines += p.lines;
        s = p.state;
        f = p.flag;
        if at == held.count as usize + chunk.len() {
            return Ok(holds(held, &*chunk, at, stage, s, f, written, lines));
        }
        let Some(q) = sequence_at(encoding, held, &*chunk, &*t1, &*t2, at, s, f) else {
            return Ok(holds(held, &*chunk, at, stage, s, f, written, lines));
        };
        if stops(mode, q.out) {
            return Err(Stop::Report {
                written,
                lines,
                place: at,
            });
        }
        written = put(room, written, q.out);
        lines += feeds(q.out);
        at += q.width as usize;
        s = q.shift.state;
        f = u8::from(q.shift.flag);
    }
}

// Where reading starts: the encoding that reads, the stage, the bytes of a mark before it, and the shift.
#[derive(Clone, Copy)]
pub struct Start {
    pub reads: u8,
    pub stage: u8,
    pub mark: u8,
    pub state: u8,
    pub flag: u8,
}

// Reading starts at a spot.
fn at_spot(encoding: u8, stage: u8, state: u8, flag: u8) -> Start
    ensures { result ≡ at_spot encoding stage state flag }
{
    let reads = reader(encoding, stage);
    Start {
        reads,
        stage,
        mark: 0,
        state,
        flag,
    }
}

// Reading starts where the first bytes choose; nowhere while they wait.
fn at_choice(encoding: u8, held: Held, chunk: &[u8]) -> Option<Start>
    requires { (held.count ≤ 3) × (length chunk.now ≤ 65536) }
    ensures { result ≡ behind_mark encoding (chosen_of (choose (bytes_of held ++ chunk.now))) }
{
    let first = byte_at(held, &*chunk, 0);
    let second = byte_at(held, &*chunk, 1);
    let third = byte_at(held, &*chunk, 2);
    match choose(first, second, third, held.count as usize + chunk.len()) {
        Chosen::Waits => None,
        Chosen::Label => Some(Start {
            reads: encoding,
            stage: 0,
            mark: 0,
            state: 0,
            flag: 0,
        }),
        Chosen::Marked { width, stage } => {
            let reads = reader(encoding, stage);
            Some(Start {
                reads,
                stage,
                mark: width,
                state: 0,
                flag: 0,
            })
        }
    }
}

// Reading starts at a spot, or where the first bytes choose.
fn start_of(encoding: u8, stage: u8, held: Held, chunk: &[u8], state: u8, flag: u8) -> Option<Start>
    requires { (held.count ≤ 3) × (length chunk.now ≤ 65536) }
    ensures { result ≡ start_of encoding stage state flag (bytes_of held ++ chunk.now) }
{
    if stage == 1 {
        return at_choice(encoding, held, &*chunk);
    }
    Some(at_spot(encoding, stage, state, flag))
}

// A chunk behind the bytes held, read from a spot into the room, where at most so many bytes may be read.
pub fn read(
    encoding: u8,
    mode: u8,
    stage: u8,
    held: Held,
    most: u32,
    chunk: &[u8],
    t1: &[u32],
    t2: &[u32],
    room: &mut [u32],
    state: u8,
    flag: u8,
) -> Result<Left, Stop>
    ensures { (result ≡ (read_chunk encoding mode stage state flag held most
        (lent t1.now t2.now) chunk.now room.old).left)
        × (room.new ≡ (read_chunk encoding mode stage state flag held most
        (lent t1.now t2.now) chunk.now room.old).room) }
{
    if 3 < held.count {
        return Err(Stop::Refused(Refusal::TooManyHeld));
    }
    if 65536 < chunk.len() {
        return Err(Stop::Refused(Refusal::ChunkTooLong));
    }
    let most = most as usize;
    let all = chunk.len() + held.count as usize;
    if most < chunk.len() {
        return Err(Stop::Refused(Refusal::TotalTooLarge));
    }
    if room.len() < all {
        return Err(Stop::Refused(Refusal::RoomTooSmall));
    }
    let Some(s) = start_of(encoding, stage, held, &*chunk, state, flag) else {
        return Ok(holds(held, &*chunk, 0, 1, 0, 0, 0, 0));
    };
    read_all(
        s.reads,
        mode,
        s.stage,
        held,
        &*chunk,
        &*t1,
        &*t2,
        s.mark as usize,
        room,
        s.state,
        s.flag,
    )
}

// Where reading starts, for callers outside; nowhere, too, where more than three bytes are held or the chunk is longer than may be fed.
pub fn starting(
    encoding: u8,
    stage: u8,
    held: Held,
    chunk: &[u8],
    state: u8,
    flag: u8,
) -> Option<Start>
    ensures { held.count ≤ 3 → length chunk.now ≤ 65536 →
        result ≡ start_of encoding stage state flag (bytes_of held ++ chunk.now) }
{
    if 3 < held.count || 65536 < chunk.len() {
        return None;
    }
    start_of(encoding, stage, held, &*chunk, state, flag)
}

// The sequence at a place of the bytes held and then the chunk, for callers outside; none too where more than three bytes are held, the
// chunk is longer than may be fed, or the place lies behind its end.
pub fn sequence(
    encoding: u8,
    held: Held,
    chunk: &[u8],
    t1: &[u32],
    t2: &[u32],
    at: usize,
    state: u8,
    flag: u8,
) -> Option<Sequence>
    ensures { held.count ≤ 3 → length chunk.now ≤ 65536 → at ≤ held.count + length chunk.now →
        next_of result ≡ next (lent t1.now t2.now) (family encoding)
        (shift state (eqb flag 1)) (drop at (bytes_of held ++ chunk.now)) }
{
    if 3 < held.count {
        return None;
    }
    if 65536 < chunk.len() {
        return None;
    }
    if held.count as usize + chunk.len() < at {
        return None;
    }
    sequence_at(encoding, held, &*chunk, &*t1, &*t2, at, state, flag)
}
