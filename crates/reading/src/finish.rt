// The end of input: what it gives for the bytes held.

ghost use Rattle.std.specs.Prelude.{◌≡◌, ◌∷◌, [], ◌+◌, ◌≤◌, eqb, length};
ghost use Rattle.standard.specs.Encodings.{ISO-2022-JP, family, lent, no_tables};
ghost use Rattle.standard.specs.Sequence.{shift};
ghost use Rattle.standard.specs.Next.{next};
ghost use Rattle.standard.specs.Decode.{last_out, given, ending};
ghost use Rattle.reading.specs.Reading.{bytes_of, past, behind, ends, read_end};

use crate::choice::reader;
use crate::feed::{feeds, holds, put, sequence_at, stops};
use crate::{Held, Left, Refusal, Stop, ended};
use line_feeds::one_scalar;
use sequences::{Out, next};

// What the byte after 1B gives at the end of input in ISO-2022-JP: it is read for itself.
fn last_scalar(state: u8, flag: u8, b: u8) -> u32
    ensures { (result ∷ []) ≡ given (last_out (next no_tables ISO-2022-JP (shift state (eqb flag 1)) (b ∷ []))) }
{
    let Some(q) = next(&[], &[], 33, state, flag, b, 0, 0, 0, 1) else {
        return 0xFFFD;
    };
    match q.out {
        Out::One(c) => c,
        _ => 0xFFFD,
    }
}

// The bytes held, at their end, with so many bytes, scalars and line feeds before them: U+FFFD, or report 11; in ISO-2022-JP the byte
// after 1B is read for itself.
fn rest(
    encoding: u8,
    mode: u8,
    held: Held,
    at: usize,
    room: &mut [u32],
    written: usize,
    lines: usize,
    state: u8,
    flag: u8,
) -> Result<Left, Stop>
    requires { (held.count ≤ 3) × (written + held.count ≤ length room.old) × (lines ≤ written) }
    ensures { (result ≡ (behind mode at written lines
        (ending no_tables (family encoding) (shift state (eqb flag 1)) (bytes_of held)) room.old).left)
        × (room.new ≡ (behind mode at written lines
        (ending no_tables (family encoding) (shift state (eqb flag 1)) (bytes_of held)) room.old).room) }
{
    if held.count == 0 {
        return Ok(ended(written, lines));
    }
    if mode == 1 {
        return Err(Stop::Report {
            written,
            lines,
            place: at,
        });
    }
    room[written] = 0xFFFD;
    if held.count == 1 {
        return Ok(ended(written + 1, lines));
    }
    if encoding != 33 {
        return Ok(ended(written + 1, lines));
    }
    let last = last_scalar(state, flag, held.second);
    room[written + 1] = last;
    let one = one_scalar(last);
    Ok(ended(written + 2, lines + one as usize))
}

// The few bytes held and then a chunk, by the label's encoding: sequence after sequence, until no whole one is left or an error ends it.
fn read_few(
    encoding: u8,
    mode: u8,
    held: Held,
    chunk: &[u8],
    t1: &[u32],
    t2: &[u32],
    room: &mut [u32],
) -> Result<Left, Stop>
    requires { (held.count ≤ 3) × (length chunk.now ≤ 65536) × (length chunk.now + held.count ≤ length room.old) }
    ensures { (result ≡ (past encoding mode 0 0 0 held 0
        (lent t1.now t2.now) chunk.now room.old).left)
        × (room.new ≡ (past encoding mode 0 0 0 held 0
        (lent t1.now t2.now) chunk.now room.old).room) }
{
    let mut at: usize = 0;
    let mut s: u8 = 0;
    let mut f: u8 = 0;
    let mut written: usize = 0;
    let mut lines: usize = 0;
    loop {
        let Some(q) = sequence_at(encoding, held, &*chunk, &*t1, &*t2, at, s, f) else {
            return Ok(holds(held, &*chunk, at, 0, s, f, written, lines));
        };
        if stops(mode, q.out) {
            return Err(Stop::Report {
                written,
                lines,
                place: at,
            });
        }
        written = put(room, written, q.out);
        lines += feeds(q.out);
        at += q.width as usize;
        s = q.shift.state;
        f = u8::from(q.shift.flag);
    }
}

// The end of input while the bytes held wait for the choice: there is no mark, and the label's encoding reads them.
fn end_waiting(
    encoding: u8,
    mode: u8,
    held: Held,
    t1: &[u32],
    t2: &[u32],
    room: &mut [u32],
) -> Result<Left, Stop>
    requires { (held.count ≤ 3) × (held.count ≤ length room.old) }
    ensures { (result ≡ (ends encoding mode 1 0 0 held (lent t1.now t2.now) room.old).left)
        × (room.new ≡ (ends encoding mode 1 0 0 held (lent t1.now t2.now) room.old).room) }
{
    let left = read_few(encoding, mode, held, &[], &*t1, &*t2, room)?;
    rest(
        encoding,
        mode,
        left.held,
        (held.count - left.held.count) as usize,
        room,
        left.written,
        left.lines,
        left.state,
        left.flag,
    )
}

// The end of input with some bytes held, at a spot. The tables are looked into only while the choice is still to come.
pub fn end(
    encoding: u8,
    mode: u8,
    stage: u8,
    held: Held,
    t1: &[u32],
    t2: &[u32],
    room: &mut [u32],
    state: u8,
    flag: u8,
) -> Result<Left, Stop>
    ensures { (result ≡ (read_end encoding mode stage state flag held
        (lent t1.now t2.now) room.old).left)
        × (room.new ≡ (read_end encoding mode stage state flag held
        (lent t1.now t2.now) room.old).room) }
{
    if 3 < held.count {
        return Err(Stop::Refused(Refusal::TooManyHeld));
    }
    if room.len() < held.count as usize {
        return Err(Stop::Refused(Refusal::RoomTooSmall));
    }
    if stage == 1 {
        return end_waiting(encoding, mode, held, &*t1, &*t2, room);
    }
    let reads = reader(encoding, stage);
    rest(reads, mode, held, 0, room, 0, 0, state, flag)
}
