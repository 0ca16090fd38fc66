// The record's constructors: a new one, one that holds bytes, one that has ended; and the answers made with them.

ghost use Rattle.std.specs.Prelude.{◌≡◌, ◌&&◌, ◌+◌, ◌-◌, ◌≤◌, eqb};
ghost use Rattle.standard.specs.Encodings.{family, traits};
ghost use Rattle.decoder.specs.Record.{new, closed};
ghost use Rattle.decoder.specs.Code.{number, Holds, accepting, reporting, refusing, Answers, fed, finished, Fits, Small, Takes};

use crate::refusals::{Refusal, marked};
use crate::{Answer, Decoder};
use reading::{Held, Left, Stop};

// A record after so many bytes and line feeds, at the spot that reading leaves, with the bytes that it leaves.
fn holding(encoding: u8, mode: u8, taken: u32, lines: u32, left: Left) -> Decoder
    ensures { Holds encoding mode taken lines left result }
{
    Decoder {
        taken,
        lines,
        encoding,
        mode,
        stage: left.stage,
        state: left.state,
        flag: left.flag,
        held: left.held.count,
        first: left.held.first,
        second: left.held.second,
        third: left.held.third,
        ended: 0,
    }
}

// Is a mark at the front to be dropped?
fn drops(encoding: u8, rule: u8) -> bool
    ensures { result ≡ ((traits (family encoding)).mark && eqb rule 0) }
{
    marked(encoding) && rule == 0
}

// A new record: nothing is read, and nothing held.
pub(crate) fn new(encoding: u8, mode: u8, rule: u8) -> Decoder
    ensures { result ≡ new encoding mode rule }
{
    let flag = u8::from(drops(encoding, rule));
    let stage = u8::from(rule == 2);
    let left = Left {
        written: 0,
        lines: 0,
        stage,
        state: 0,
        flag,
        held: Held::NONE,
    };
    holding(encoding, mode, 0, 0, left)
}

// A record that has ended, after so many bytes and line feeds.
fn closed(encoding: u8, mode: u8, taken: u32, lines: u32) -> Decoder
    ensures { result ≡ closed encoding mode taken lines }
{
    Decoder {
        taken,
        lines,
        encoding,
        mode,
        stage: 0,
        state: 0,
        flag: 0,
        held: 0,
        first: 0,
        second: 0,
        third: 0,
        ended: 1,
    }
}

// The answer of a call that is read: so many scalars written, and the decoder afterwards.
pub(crate) fn accepted(written: usize, decoder: Decoder) -> Answer
    ensures { result ≡ accepting written decoder }
{
    Answer {
        written,
        place: 0,
        line: 0,
        refusal: 0,
        decoder,
    }
}

// The answer of a refused call: everything stays as it was.
pub(crate) fn refused(decoder: Decoder, refusal: u8) -> Answer
    ensures { result ≡ refusing refusal decoder }
{
    Answer {
        written: 0,
        place: 0,
        line: 0,
        refusal,
        decoder,
    }
}

// The answer of a refused opening.
pub(crate) fn unopened(refusal: Refusal) -> Answer
    ensures { result ≡ refusing (number refusal) (closed 0 0 0 0) }
{
    refused(closed(0, 0, 0, 0), u8::from(refusal))
}

// Where the bytes held begin: the bytes taken before them.
fn start(d: Decoder) -> u32
    requires { d.held ≤ d.taken }
    ensures { result ≡ d.taken - d.held }
{
    d.taken - u32::from(d.held)
}

// Report 11, after so many bytes: the error's place and line, and a decoder that has ended.
fn reported(d: Decoder, taken: u32, written: usize, place: usize, lines: usize) -> Answer
    requires { Fits d taken place lines }
    ensures { result ≡ reporting d.encoding d.mode taken (d.lines + lines) written (d.taken - d.held + place) }
{
    let from = start(d);
    let place = from + place as u32;
    let lines = d.lines + lines as u32;
    let line = 1 + lines;
    let decoder = closed(d.encoding, d.mode, taken, lines);
    Answer {
        written,
        place,
        line,
        refusal: 11,
        decoder,
    }
}

// The answer of a feed of n bytes, by what reading leaves.
pub(crate) fn answer(d: Decoder, n: usize, left: Result<Left, Stop>) -> Answer
    requires { Takes (d.taken + n) left × Small d (d.taken + n) left }
    ensures { Answers d (d.taken + n) (fed d (d.taken + n)) left result }
{
    match left {
        Ok(left) => {
            let taken = d.taken + n as u32;
            let lines = d.lines + left.lines as u32;
            let decoder = holding(d.encoding, d.mode, taken, lines, left);
            accepted(left.written, decoder)
        }
        Err(
            Stop::Report {
                written,
                lines,
                place,
            },
        ) => reported(d, d.taken + n as u32, written, place, lines),
        Err(Stop::Refused(refusal)) => refused(d, u8::from(refusal)),
    }
}

// The answer of a finish, by what the end of input leaves.
pub(crate) fn end_answer(d: Decoder, left: Result<Left, Stop>) -> Answer
    requires { Small d d.taken left }
    ensures { Answers d d.taken (finished d) left result }
{
    match left {
        Ok(left) => {
            let lines = d.lines + left.lines as u32;
            let decoder = closed(d.encoding, d.mode, d.taken, lines);
            accepted(left.written, decoder)
        }
        Err(
            Stop::Report {
                written,
                lines,
                place,
            },
        ) => reported(d, d.taken, written, place, lines),
        Err(Stop::Refused(refusal)) => refused(d, u8::from(refusal)),
    }
}
