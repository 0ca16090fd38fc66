// Document 01, "Program `showtext`": the encoding that the first line of standard input names, the scalars of the rest, and their number.
#![tactic(auto)]

mod lines;

ghost use Rattle.std.specs.Prelude.{◌≡◌, List, ℕ, ◌+◌, ◌*◌, ◌≤◌, ◌<◌, ◌^◌, length, take, IfSome, IfOk, IfErr, OnOk};
ghost use Rattle.std.specs.Io.KnownBytes.{Appends};
ghost use Rattle.standard.specs.Encodings.{no_tables};
ghost use Rattle.decoder.specs.Calls.{feeding, finishing};
ghost use Rattle.showtext.specs.Output.{printed, refused, scalar_lines};
ghost use Rattle.showtext.specs.Code.{heading, feeding_on};
ghost use Rattle.showtext.specs.Refusals.{number};
ghost use Rattle.showtext.specs.Program.{Answers, Gives, Ends, beginning, going_on, closing};
ghost use Rattle.showtext.specs.Statements.{Whole, Stepped};

use decoder::{Answer, Decoder};
use lines::{put_encoding, put_scalars};
use program_text::refill::fill;
use program_text::{after_line, first_label, put_number};
use std::io;
use std::io::{Read, Write};

// More reads than any text that a decoder takes needs.
const READS: u64 = 0x4_0000_0000_0000;

// Why the program stops before the end of its input.
#[derive(Clone, Copy)]
enum Refusal {
    // no encoding has the label
    Label,
    // a feed is refused with this number
    Feed(u8),
}

// The number that is printed.
impl From<Refusal> for u64 {
    ghost from_gives = { λ r n. n ≡ number r };

    fn from(refusal: Refusal) -> u64 {
        match refusal {
            Refusal::Label => 1,
            Refusal::Feed(number) => u64::from(number),
        }
    }
}

// What a buffer leaves: the decoder, the bytes of text at the front of `out`, and the scalars so far.
#[derive(Clone, Copy)]
struct Progress {
    decoder: Decoder,
    length: usize,
    count: u64,
}

// How the program ends: at the end of its input or with a refusal, or since no reads are left.
#[derive(Clone, Copy)]
enum End {
    Over,
    Unfinished,
}

// The one line of a refusal, which ends the program.
fn refuse<W: Write>(to: &mut W, refusal: Refusal, out: &mut [u8]) -> io::Result<End>
    requires { 32 ≤ length out.old }
    ensures { OnOk result (Appends (W.contents to.old) (W.contents to.new) (refused (number refusal))) }
{
    let n = put_number(out, 0, b"refused", u64::from(refusal));
    to.write_all(&out[..n])?;
    Ok(End::Over)
}

// The lines of the scalars that a feed or finish wrote, from a place on.
fn show(answer: Answer, count: u64, room: &[u32], out: &mut [u8], at: usize) -> Progress
    requires { (answer.written ≤ length room.now) × (at + 32 * answer.written ≤ length out.old) × (count + answer.written < 2 ^ 64) }
    ensures { Answers answer.decoder (count + answer.written) out.old at
        (scalar_lines count (take answer.written room.now)) result out.new }
{
    let written = answer.written;
    let decoder = answer.decoder;
    let length = put_scalars(out, at, count, &room[..written]);
    Progress {
        decoder,
        length,
        count: count + written as u64,
    }
}

// A feed with empty tables.
fn feed(decoder: Decoder, chunk: &[u8], room: &mut [u32]) -> Result<Answer, Refusal>
    ensures room { room.new ≡ (feeding decoder no_tables chunk.now room.old).room }
    ensures fed { IfOk result (λ a. (a ≡ (feeding decoder no_tables chunk.now room.old).answer) × (a.refusal ≡ 0)) }
    ensures refused { IfErr result (λ r. ((feeding decoder no_tables chunk.now room.old).answer.refusal ≡ number r) × (0 < number r)) }
{
    let answer = decoder.feed(chunk, &[], &[], room);
    if answer.refusal != 0 {
        return Err(Refusal::Feed(answer.refusal));
    }
    Ok(answer)
}

// A finish with empty tables.
fn finish(decoder: Decoder, room: &mut [u32]) -> Answer
    ensures { (result ≡ (finishing decoder no_tables room.old).answer) ×
        (room.new ≡ (finishing decoder no_tables room.old).room) }
{
    decoder.finish(&[], &[], room)
}

// The first bytes of a text: behind the line of the encoding's name, the lines of their scalars.
fn begin_text(
    decoder: Decoder,
    encoding: u8,
    chunk: &[u8],
    room: &mut [u32],
    out: &mut [u8],
) -> Result<Progress, Refusal>
    requires { 32 * length room.old + 32 ≤ length out.old }
    ensures { Gives (feeding_on (heading encoding) decoder 0 chunk.now room.old out.old)
        result room.new out.new }
{
    let first = feed(decoder, chunk, room)?;
    let at = put_encoding(out, encoding);
    Ok(show(first, 0, room, out, at))
}

// The first buffer of the input.
fn begin(input: &[u8], room: &mut [u32], out: &mut [u8]) -> Result<Progress, Refusal>
    requires { 32 * length room.old + 32 ≤ length out.old }
    ensures { Gives (beginning input.now room.old out.old) result room.new out.new }
{
    let found = first_label(input);
    if found.refusal == 1 {
        return Err(Refusal::Label);
    }
    let opened = Decoder::open(found.encoding, 0, 0);
    begin_text(opened.decoder, found.encoding, after_line(input), room, out)
}

// A further buffer, after `count` scalars.
fn go_on(
    decoder: Decoder,
    count: u64,
    chunk: &[u8],
    room: &mut [u32],
    out: &mut [u8],
) -> Result<Progress, Refusal>
    requires { (32 * length room.old + 32 ≤ length out.old) × (count + length room.old < 2 ^ 64) }
    ensures { Gives (going_on decoder count chunk.now room.old out.old) result room.new out.new }
{
    let fed = feed(decoder, chunk, room)?;
    Ok(show(fed, count, room, out, 0))
}

// The end of input, after `count` scalars; how many bytes of text there are.
fn close(decoder: Decoder, count: u64, room: &mut [u32], out: &mut [u8]) -> usize
    requires { (32 * length room.old + 32 ≤ length out.old) × (count + length room.old < 2 ^ 64) }
    ensures { Ends (closing decoder count room.old out.old) result out.new }
{
    let last = finish(decoder, room);
    let s = show(last, count, room, out, 0);
    put_number(out, s.length, b"end", s.count)
}

// The whole input, through a buffer, a room for its scalars and a room for their lines: the first buffer, further ones while the last
// one was full, and the end of input.
fn run<R: Read, W: Write>(
    input: &mut R,
    output: &mut W,
    buffer: &mut [u8],
    room: &mut [u32],
    out: &mut [u8],
) -> io::Result<End>
    requires { (length room.old ≤ 4099) × (32 * length room.old + 32 ≤ length out.old) }
    ensures bytes { OnOk result (IfSome (R.remaining input.old) (λ all.
        Whole (length buffer.old) (length room.old) all → Appends (W.contents output.old) (W.contents output.new) (printed all))) }
    ensures steps { OnOk result (IfSome (R.remaining input.old) (λ all. 0 < length buffer.old →
        (text : List ℕ) × Stepped (length buffer.old) room.old out.old all text × Appends (W.contents output.old) (W.contents output.new) text)) }
{
    let mut n = fill(input, buffer)?;
    let mut s = match begin(&buffer[..n], room, out) {
        Ok(s) => s,
        Err(refusal) => return refuse(output, refusal, out),
    };
    output.write_all(&out[..s.length])?;
    for _ in 0..READS {
        if n < buffer.len() {
            let length = close(s.decoder, s.count, room, out);
            output.write_all(&out[..length])?;
            return Ok(End::Over);
        }
        n = fill(input, buffer)?;
        s = match go_on(s.decoder, s.count, &buffer[..n], room, out) {
            Ok(s) => s,
            Err(refusal) => return refuse(output, refusal, out),
        };
        output.write_all(&out[..s.length])?;
    }
    Ok(End::Unfinished)
}

fn main(rt: HostRuntime) -> io::Result<()> {
    let mut buffer = [0u8; 4096];
    let mut room = [0u32; 4099];
    let mut out = [0u8; 131200];
    run(
        &mut rt.stdin(),
        &mut rt.stdout(),
        &mut buffer,
        &mut room,
        &mut out,
    )?;
    Ok(())
}
