// The decoder: its record, opening, feed and finish.
// A slice that is passed on is lent anew (`&*`): docs/DECISIONS.md, 45.
#![tactic(auto)]

mod record;
mod refusals;

ghost use Rattle.std.specs.Prelude.{◌≡◌};
ghost use Rattle.standard.specs.Encodings.{lent};
ghost use Rattle.decoder.specs.Calls.{opening, feeding, finishing};
ghost use Rattle.decoder.specs.Code.{held_in};

use reading::Held;
use reading::feed::read;
use reading::finish::end;
use record::{accepted, answer, end_answer, new, refused, unopened};
use refusals::{feedable, finishable, openable};

// What a decoder keeps from call to call. Every field is a number in use; one that is not in use is 0.
#[repr(C)]
#[derive(Clone, Copy)]
pub struct Decoder {
    // the bytes taken since the opening, a dropped or eaten mark and the bytes held among them
    pub taken: u32,
    // the line feeds (U+000A) handed out since the opening
    pub lines: u32,
    // encoding number of the label, 0 to 39
    pub encoding: u8,
    // 0 replacing, 1 refusing
    pub mode: u8,
    // 0 the label's encoding reads, 1 a mark at the front is still to choose, 2, 3, 4 a mark chose UTF-8, UTF-16BE, UTF-16LE
    pub stage: u8,
    // ISO-2022-JP: output state, 0 ASCII, 1 Roman, 2 katakana, 3 lead byte
    pub state: u8,
    // ISO-2022-JP: output flag; replacement: error given; UTF-8 and UTF-16: a mark at the front is still to be dropped
    pub flag: u8,
    // how many bytes are held, 0 to 3, and the bytes
    pub held: u8,
    pub first: u8,
    pub second: u8,
    pub third: u8,
    // 1 once a finish, a report 11 or a refused opening has come
    pub ended: u8,
}

// What opening, feed and finish answer: the refusal number of document 01 or 0, the scalars written, and the decoder afterwards.
// Of report 11 place and line of the error, too; they are 0 in every other answer.
#[repr(C)]
#[derive(Clone, Copy)]
pub struct Answer {
    pub written: usize,
    // the bytes taken since the opening before the first byte of the sequence at fault
    pub place: u32,
    // one plus the line feeds handed out before it
    pub line: u32,
    pub refusal: u8,
    pub decoder: Decoder,
}

impl Decoder {
    // A new decoder of an encoding number, in a mode (0 replacing, 1 refusing), by a byte order mark rule (0 drop, 1 keep, 2 choose).
    pub fn open(encoding: u8, mode: u8, rule: u8) -> Answer
        ensures { result ≡ opening encoding mode rule }
    {
        match openable(encoding, mode, rule) {
            Ok(()) => accepted(0, new(encoding, mode, rule)),
            Err(refusal) => unopened(refusal),
        }
    }

    // The bytes held, as reading takes them.
    pub fn held(self) -> Held
        ensures { result ≡ held_in self }
    {
        Held {
            count: self.held,
            first: self.first,
            second: self.second,
            third: self.third,
        }
    }

    // Decodes a chunk into the room: the bytes held and then the chunk, with the tables that the label's encoding wants.
    pub fn feed(self, chunk: &[u8], t1: &[u32], t2: &[u32], room: &mut [u32]) -> Answer
        ensures { (result ≡ (feeding self (lent t1.now t2.now) chunk.now room.old).answer)
            × (room.new ≡ (feeding self (lent t1.now t2.now) chunk.now room.old).room) }
    {
        if let Err(refusal) = feedable(self, &*t1, &*t2) {
            return refused(self, u8::from(refusal));
        }
        let before = self.held();
        let left = read(
            self.encoding,
            self.mode,
            self.stage,
            before,
            u32::MAX - self.taken,
            &*chunk,
            &*t1,
            &*t2,
            room,
            self.state,
            self.flag,
        );
        answer(self, chunk.len(), left)
    }

    // The end of input: what it gives for the bytes held. The tables are looked at only while the choice is still to come.
    pub fn finish(self, t1: &[u32], t2: &[u32], room: &mut [u32]) -> Answer
        ensures { (result ≡ (finishing self (lent t1.now t2.now) room.old).answer)
            × (room.new ≡ (finishing self (lent t1.now t2.now) room.old).room) }
    {
        if let Err(refusal) = finishable(self, &*t1, &*t2) {
            return refused(self, u8::from(refusal));
        }
        let before = self.held();
        let left = end(
            self.encoding,
            self.mode,
            self.stage,
            before,
            &*t1,
            &*t2,
            room,
            self.state,
            self.flag,
        );
        end_answer(self, left)
    }
}
