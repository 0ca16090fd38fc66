// Writing: document 01, "Writing rules" and "Refusal numbers"; 02, Asks 6 and 8.
#![tactic(auto)]

mod escapes;
mod one_byte;
mod pairs;
mod references;
mod refusals;
mod room;
mod single_byte;
mod slots;
mod user_defined;
mod utf8;
mod writers;

ghost use Rattle.std.specs.Prelude.{◌≡◌};
ghost use Rattle.standard.specs.Encodings.{lent};
ghost use Rattle.reverse_index_spec.specs.ReverseIndex.{look_up};
ghost use Rattle.encoder_spec.specs.Writer.{call_by, writer_call, writer_finish};
ghost use Rattle.indexed_writing.specs.Call.{indexed_call};
ghost use Rattle.encoder.specs.WriterCode.{number_of, refused};

use encoder_spec::Written;
use refusals::{Refusal, check};

// Nothing is written where a call is refused, and the state stays.
fn refused(refusal: Refusal, state: u8) -> Written
    ensures { result ≡ refused (number_of refusal) state }
{
    Written {
        written: 0,
        index: 0,
        refusal: u8::from(refusal),
        state,
    }
}

// A call by a reverse index of any cells, or of none, with the right length or not. Nothing is written where it is refused.
fn call(
    encoding: u8,
    mode: u8,
    state: u8,
    scalars: &[u32],
    t1: &[u32],
    t2: &[u32],
    links: &[u32],
    right: bool,
    room: &mut [u8],
) -> Written
    ensures { (result ≡ (call_by (look_up t1.now links.now) right encoding mode state
        (lent t1.now t2.now) scalars.now room.old).answer) ×
        (room.new ≡ (call_by (look_up t1.now links.now) right encoding mode state
        (lent t1.now t2.now) scalars.now room.old).room) }
{
    match check(
        encoding,
        mode,
        state,
        scalars,
        t1,
        t2,
        links,
        right,
        room.len(),
    ) {
        Ok(()) => writers::write(encoding, mode, state, scalars, t1, t2, links, room),
        Err(refusal) => refused(refusal, state),
    }
}

// The writer's call: the scalars' bytes are written at the front of the room. Nothing is written where the call is refused.
pub fn encode(
    encoding: u8,
    mode: u8,
    state: u8,
    scalars: &[u32],
    t1: &[u32],
    t2: &[u32],
    room: &mut [u8],
) -> Written
    ensures { (result ≡ (writer_call encoding mode state (lent t1.now t2.now)
        scalars.now room.old).answer) ×
        (room.new ≡ (writer_call encoding mode state (lent t1.now t2.now)
        scalars.now room.old).room) }
{
    call(encoding, mode, state, scalars, t1, t2, &[], true, room)
}

// The same with an index of any cells beside the first table. 15: the index has not the length for the table.
pub fn encode_indexed(
    encoding: u8,
    mode: u8,
    state: u8,
    scalars: &[u32],
    t1: &[u32],
    t2: &[u32],
    index: &[u32],
    room: &mut [u8],
) -> Written
    ensures { (result ≡ (indexed_call encoding mode state (lent t1.now t2.now) index.now scalars.now
        room.old).answer) × (room.new ≡ (indexed_call encoding mode state (lent t1.now t2.now)
        index.now scalars.now room.old).room) }
{
    let right = reverse_index::fits(t1, index);
    call(encoding, mode, state, scalars, t1, t2, index, right, room)
}

// The finish: a return to ASCII.
pub fn finish(state: u8, room: &mut [u8]) -> Written
    ensures { (result ≡ (writer_finish state room.old).answer) × (room.new ≡ (writer_finish state room.old).room) }
{
    if 2 < state {
        return refused(Refusal::NoState, state);
    }
    if room.len() < escapes::size(state, 0) {
        return refused(Refusal::NoRoom, state);
    }
    let written = escapes::put(room, 0, state, 0);
    Written {
        written,
        index: 0,
        refusal: 0,
        state: 0,
    }
}
