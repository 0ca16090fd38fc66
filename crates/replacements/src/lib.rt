// Document 02, Ask 12: a feed and a finish that also tell which sequences were replaced, each with its place and its width.
#![tactic(auto)]

ghost use Rattle.std.specs.Prelude.{◌≡◌, ◌++◌, ◌∷◌, [], ◌+◌, ◌-◌, ◌*◌, ◌≤◌, ◌<◌, ltb, eqb, length};
ghost use Rattle.standard.specs.Encodings.{ISO-2022-JP, family, lent, no_tables};
ghost use Rattle.standard.specs.Sequence.{shift, plain};
ghost use Rattle.standard.specs.Next.{next};
ghost use Rattle.standard.specs.Decode.{last_out, iso_end, ending, everything};
ghost use Rattle.reading.specs.Reading.{bytes_of};
ghost use Rattle.decoder.specs.Calls.{read_on, read_end};
ghost use Rattle.replacements_spec.specs.Replaced.{replaced};
ghost use Rattle.replacements_spec.specs.Calls.{Leaves, replaced_by, feed_telling, finish_telling};
ghost use Rattle.replacements.specs.Walks.{at, replacing, noted, is_error, Walks, Adds, Fed, Finished};

use decoder::Decoder;
use reading::Held;
use reading::choice::reader;
use reading::feed::{sequence, starting};
use replacements_spec::Replacing;
use sequences::{Sequence, next};

// Where a walk over sequences stands at its end: the place, the replaced sequences told, and the shift.
#[derive(Clone, Copy)]
struct Walked {
    at: usize,
    count: usize,
    state: u8,
    flag: u8,
}

// Is U+FFFD among the scalars?
fn has_replacement(scalars: &[u32]) -> bool
    ensures { result ≡ replacing scalars.now }
{
    scalars.contains(&0xFFFD)
}

// Tells of one replaced sequence, behind n others; how many are told then.
fn put_span(spans: &mut [u32], n: usize, place: u32, width: u32) -> usize
    requires { 2 * n + 2 ≤ length spans.old }
    ensures { Adds spans.old n (at place width ∷ []) result spans.new }
{
    spans[2 * n] = place;
    spans[2 * n + 1] = width;
    n + 1
}

// Tells of a sequence, behind n others, if it is an error; how many are told then.
fn note(spans: &mut [u32], n: usize, place: u32, q: Sequence) -> usize
    requires { 2 * n + 2 ≤ length spans.old }
    ensures { Adds spans.old n (noted place q) result spans.new }
{
    if !q.out.is_error() {
        return n;
    }
    put_span(spans, n, place, q.width as u32)
}

// The sequences behind a mark of so many bytes, one after another, until no whole one is left; the errors among them are told.
fn walk(
    encoding: u8,
    held: Held,
    chunk: &[u8],
    t1: &[u32],
    t2: &[u32],
    from: u32,
    mark: usize,
    spans: &mut [u32],
    state: u8,
    flag: u8,
) -> Walked
    requires { (held.count ≤ 3) × (length chunk.now ≤ 65536) × (mark ≤ held.count + length chunk.now)
        × (from + held.count + length chunk.now ≤ 4294967295) × (2 * (held.count + length chunk.now) ≤ length spans.old) }
    ensures { Walks (lent t1.now t2.now) encoding state flag from mark (bytes_of held ++ chunk.now)
        spans.old result spans.new }
{
    let mut at = mark;
    let mut s = state;
    let mut f = flag;
    let mut n: usize = 0;
    loop {
        let Some(q) = sequence(encoding, held, chunk, t1, t2, at, s, f) else {
            return Walked {
                at,
                count: n,
                state: s,
                flag: f,
            };
        };
        n = note(spans, n, from + at as u32, q);
        at += q.width as usize;
        s = q.shift.state;
        f = u8::from(q.shift.flag);
    }
}

// Tells what an accepted feed replaced; how many sequences.
fn tell(
    d: Decoder,
    chunk: &[u8],
    t1: &[u32],
    t2: &[u32],
    scalars: &[u32],
    spans: &mut [u32],
) -> usize
    requires { Fed d (lent t1.now t2.now) chunk.now spans.old scalars.now }
    ensures { Adds spans.old 0 (replaced_by d.mode (d.taken - d.held)
        (read_on d (lent t1.now t2.now) chunk.now).items) result spans.new }
{
    if d.mode == 1 {
        return 0;
    }
    if has_replacement(scalars) {
        let before = d.held();
        let Some(s) = starting(d.encoding, d.stage, before, chunk, d.state, d.flag) else {
            return 0;
        };
        let from = d.taken - u32::from(d.held);
        let w = walk(
            s.reads,
            before,
            chunk,
            t1,
            t2,
            from,
            s.mark as usize,
            spans,
            s.state,
            s.flag,
        );
        return w.count;
    }
    0
}

// Is the byte after 1B an error at the end of input in ISO-2022-JP, where it is read for itself?
fn last_is_error(state: u8, flag: u8, b: u8) -> bool
    ensures { result ≡ is_error (last_out (next no_tables ISO-2022-JP (shift state (eqb flag 1)) (b ∷ []))) }
{
    match next(&[], &[], 33, state, flag, b, 0, 0, 0, 1) {
        Some(q) => q.out.is_error(),
        None => true,
    }
}

// Tells of 1B at the end of input in ISO-2022-JP, and of the bytes behind it if they are an error.
fn tell_escape(rest: &[u8], place: u32, spans: &mut [u32], n: usize, state: u8, flag: u8) -> usize
    requires { (2 ≤ length rest.now) × (length rest.now ≤ 3) × (place + length rest.now ≤ 4294967295)
        × (2 * (n + length rest.now) ≤ length spans.old) }
    ensures { Adds spans.old n
        (replaced place (iso_end no_tables (shift state (eqb flag 1)) rest.now)) result spans.new }
{
    let m = put_span(spans, n, place, 1);
    if last_is_error(state, flag, rest[1]) {
        return put_span(spans, m, place + 1, rest.len() as u32 - 1);
    }
    m
}

// Tells what the end of input replaces of the bytes that are left, behind n others.
fn tell_rest(
    encoding: u8,
    rest: &[u8],
    place: u32,
    spans: &mut [u32],
    n: usize,
    state: u8,
    flag: u8,
) -> usize
    requires { (length rest.now ≤ 3) × (place + length rest.now ≤ 4294967295) × (2 * (n + length rest.now) ≤ length spans.old) }
    ensures { Adds spans.old n
        (replaced place (ending no_tables (family encoding) (shift state (eqb flag 1)) rest.now)) result spans.new }
{
    let left = rest.len();
    if left == 0 {
        return n;
    }
    if left == 1 {
        return put_span(spans, n, place, 1);
    }
    if encoding == 33 {
        return tell_escape(rest, place, spans, n, state, flag);
    }
    put_span(spans, n, place, left as u32)
}

// Tells what the end of input replaces of bytes that wait for the choice: there is no mark, and the label's encoding reads them.
fn tell_waiting(
    encoding: u8,
    bytes: &[u8],
    t1: &[u32],
    t2: &[u32],
    from: u32,
    spans: &mut [u32],
) -> usize
    requires { (length bytes.now ≤ 3) × (from + length bytes.now ≤ 4294967295) × (2 * length bytes.now ≤ length spans.old) }
    ensures { Adds spans.old 0
        (replaced from (everything (lent t1.now t2.now) (family encoding) plain bytes.now))
        result spans.new }
{
    let w = walk(encoding, Held::NONE, bytes, t1, t2, from, 0, spans, 0, 0);
    let at = w.at;
    let place = from + at as u32;
    tell_rest(
        encoding,
        &bytes[at..],
        place,
        spans,
        w.count,
        w.state,
        w.flag,
    )
}

// Tells what an accepted finish replaced; how many sequences.
fn tell_end(d: Decoder, t1: &[u32], t2: &[u32], spans: &mut [u32]) -> usize
    requires { Finished d (lent t1.now t2.now) spans.old }
    ensures { Adds spans.old 0 (replaced_by d.mode (d.taken - d.held)
        (read_end d (lent t1.now t2.now))) result spans.new }
{
    if d.mode == 1 {
        return 0;
    }
    let n = usize::from(d.held);
    let bytes = [d.first, d.second, d.third];
    let from = d.taken - u32::from(d.held);
    if d.stage == 1 {
        return tell_waiting(d.encoding, &bytes[..n], t1, t2, from, spans);
    }
    let reads = reader(d.encoding, d.stage);
    tell_rest(reads, &bytes[..n], from, spans, 0, d.state, d.flag)
}

// Have the spans fewer than two cells for each of so many bytes, and those held?
fn short(cells: usize, bytes: usize, held: u8) -> bool
    ensures { result ≡ ltb cells (2 * (bytes + held)) }
{
    cells / 2 < bytes.saturating_add(usize::from(held))
}

// Decodes a chunk into the room as a decoder's feed does, and tells in the spans what was replaced.
pub fn feed(
    d: Decoder,
    chunk: &[u8],
    t1: &[u32],
    t2: &[u32],
    room: &mut [u32],
    spans: &mut [u32],
) -> Replacing
    ensures { Leaves (feed_telling d (lent t1.now t2.now) chunk.now room.old spans.old)
        result room.new spans.new }
{
    if short(spans.len(), chunk.len(), d.held) {
        let answer = d.feed(chunk, t1, t2, &mut []);
        return Replacing { answer, count: 0 };
    }
    let answer = d.feed(chunk, t1, t2, room);
    if answer.refusal != 0 {
        return Replacing { answer, count: 0 };
    }
    let written = answer.written;
    let count = tell(d, chunk, t1, t2, &room[..written], spans);
    Replacing { answer, count }
}

// The end of input, as a decoder's finish, telling what was replaced.
pub fn finish(d: Decoder, t1: &[u32], t2: &[u32], room: &mut [u32], spans: &mut [u32]) -> Replacing
    ensures { Leaves (finish_telling d (lent t1.now t2.now) room.old spans.old)
        result room.new spans.new }
{
    if short(spans.len(), 0, d.held) {
        let answer = d.finish(t1, t2, &mut []);
        return Replacing { answer, count: 0 };
    }
    let answer = d.finish(t1, t2, room);
    if answer.refusal != 0 {
        return Replacing { answer, count: 0 };
    }
    let count = tell_end(d, t1, t2, spans);
    Replacing { answer, count }
}
