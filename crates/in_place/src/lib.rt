// Feed and finish of a decoder that is lent and altered where it stands. Each is its by-value call: the record is handed over as it stands,
// and what the call left of it is stored.
#![tactic(auto)]

ghost use Rattle.std.specs.Prelude.{◌≡◌};
ghost use Rattle.standard.specs.Encodings.{lent};
ghost use Rattle.decoder.specs.Calls.{feeding, finishing};
ghost use Rattle.in_place.specs.Replies.{reply_of, Leaves};

use decoder::{Answer, Decoder};

// What a call on a lent decoder answers: as Answer, without the decoder.
#[repr(C)]
#[derive(Clone, Copy)]
pub struct Reply {
    pub written: usize,
    pub place: u32,
    pub line: u32,
    pub refusal: u8,
}

impl From<Answer> for Reply {
    ghost from_gives = { λ answer reply. reply ≡ reply_of answer };

    fn from(answer: Answer) -> Reply {
        Reply {
            written: answer.written,
            place: answer.place,
            line: answer.line,
            refusal: answer.refusal,
        }
    }
}

// Feed: Decoder::feed on the decoder that is lent.
pub fn feed(decoder: &mut Decoder, chunk: &[u8], t1: &[u32], t2: &[u32], room: &mut [u32]) -> Reply
    ensures { Leaves
        (feeding decoder.old (lent t1.now t2.now) chunk.now room.old)
        result decoder.new room.new }
{
    let fed = (*decoder).feed(chunk, t1, t2, room);
    *decoder = fed.decoder;
    Reply::from(fed)
}

// Finish: Decoder::finish on the decoder that is lent.
pub fn finish(decoder: &mut Decoder, t1: &[u32], t2: &[u32], room: &mut [u32]) -> Reply
    ensures { Leaves (finishing decoder.old (lent t1.now t2.now) room.old)
        result decoder.new room.new }
{
    let last = (*decoder).finish(t1, t2, room);
    *decoder = last.decoder;
    Reply::from(last)
}
