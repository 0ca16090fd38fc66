// The run of an encoding, by its number, and the line feeds among the scalars that it writes.

ghost use Rattle.std.specs.Prelude.{◌≡◌, ℕ, ◌-◌};
ghost use Rattle.standard.specs.Base.{◌then◌else◌, line_feeds};
ghost use Rattle.standard.specs.Encodings.{Tables, family, lent, traits};
ghost use Rattle.line_feeds.specs.Parts.{part};
ghost use Rattle.runs.specs.Run.{Run, Ready};
ghost use Rattle.runs.specs.Counts.{counted, Counts};

use iso_2022_jp_runs::iso_2022_jp_run;
use line_feeds::{in_bytes, in_scalars};
use pair_runs::pairs::pairs_run;
use runs::ascii::count_ascii;
use runs::{Counted, Place};
use utf8_runs::utf8_run;
use word_runs::single_byte::{single_byte_run, windows_1252_run};
use word_runs::utf_16::utf_16_run;

// A run from a place on, of an encoding whose line feeds are counted behind it. An answer with a name of its own is not copied while it is
// still being stored.
fn by_number(
    encoding: u8,
    mode: u8,
    chunk: &[u8],
    t1: &[u32],
    t2: &[u32],
    room: &mut [u32],
    p: Place,
) -> Place
    ensures { Run (lent t1.now t2.now) (family encoding) mode chunk.now p result room.old room.new }
{
    if encoding == 0 {
        let r = utf8_run(mode, &*chunk, room, p);
        return r;
    }
    if encoding == 33 {
        let r = iso_2022_jp_run(mode, &*chunk, &*t1, &*t2, room, p);
        return r;
    }
    if encoding <= 35 {
        let r = pairs_run(encoding, mode, &*chunk, &*t1, &*t2, room, p);
        return r;
    }
    p
}

// Does an encoding keep separators?
fn keeps(encoding: u8) -> bool
    ensures { result ≡ (traits (family encoding)).separators }
{
    encoding != 33 && (encoding < 36 || 38 < encoding)
}

// A place without line feeds.
pub(crate) fn uncounted(p: Place) -> Counted
    ensures { result ≡ counted p 0 }
{
    Counted {
        at: p.at,
        written: p.written,
        lines: 0,
        state: p.state,
        flag: p.flag,
    }
}

// A long stretch of ASCII in front of a run, where ASCII stands for itself.
fn front(encoding: u8, chunk: &[u8], room: &mut [u32], p: Place) -> Counted
    requires { Ready chunk.now p.at room.old p.written }
    ensures { (t : Tables) (m : ℕ) → Counts t (family encoding) m chunk.now p result room.old room.new }
{
    if !keeps(encoding) {
        return uncounted(p);
    }
    if p.state != 0 {
        return uncounted(p);
    }
    if p.flag != 0 {
        return uncounted(p);
    }
    let s = count_ascii(&*chunk, p.at, room, p.written);
    Counted {
        at: p.at + s.length,
        written: p.written + s.length,
        lines: s.lines,
        state: 0,
        flag: 0,
    }
}

// The line feeds of a run from a place to another: where separators are kept, those of the bytes that it read, else of the scalars that it wrote.
fn feeds(encoding: u8, chunk: &[u8], room: &[u32], from: Place, to: Place) -> usize
    ensures { result ≡ ((traits (family encoding)).separators then line_feeds (part chunk.now from.at (to.at - from.at)) else
        line_feeds (part room.now from.written (to.written - from.written))) }
{
    if keeps(encoding) {
        return in_bytes(&*chunk, from.at, to.at);
    }
    in_scalars(&*room, from.written, to.written)
}

// A run, and then its line feeds.
fn then_counted(
    encoding: u8,
    mode: u8,
    chunk: &[u8],
    t1: &[u32],
    t2: &[u32],
    room: &mut [u32],
    p: Place,
) -> Counted
    ensures { Counts (lent t1.now t2.now) (family encoding) mode chunk.now p result room.old room.new }
{
    let r = by_number(encoding, mode, &*chunk, &*t1, &*t2, room, p);
    let lines = feeds(encoding, &*chunk, room, p, r);
    Counted {
        at: r.at,
        written: r.written,
        lines,
        state: r.state,
        flag: r.flag,
    }
}

// A run from a place on with its line feeds. It may stop anywhere; what it has read stands in the room.
fn counted_run(
    encoding: u8,
    mode: u8,
    chunk: &[u8],
    t1: &[u32],
    t2: &[u32],
    room: &mut [u32],
    p: Place,
) -> Counted
    ensures { Counts (lent t1.now t2.now) (family encoding) mode chunk.now p result room.old room.new }
{
    if encoding == 21 {
        let r = windows_1252_run(&*chunk, room, p);
        return r;
    }
    if encoding != 0 {
        if encoding <= 28 {
            let r = single_byte_run(mode, &*chunk, &*t1, &*t2, room, p);
            return r;
        }
    }
    then_counted(encoding, mode, &*chunk, &*t1, &*t2, room, p)
}

// A run with its line feeds.
pub(crate) fn run(
    encoding: u8,
    mode: u8,
    chunk: &[u8],
    t1: &[u32],
    t2: &[u32],
    room: &mut [u32],
    p: Place,
) -> Counted
    requires { Ready chunk.now p.at room.old p.written }
    ensures { Counts (lent t1.now t2.now) (family encoding) mode chunk.now p result room.old room.new }
{
    if encoding == 37 {
        let r = utf_16_run(true, mode, &*chunk, room, p);
        return r;
    }
    if encoding == 38 {
        let r = utf_16_run(false, mode, &*chunk, room, p);
        return r;
    }
    let a = front(encoding, &*chunk, room, p);
    if a.at == chunk.len() {
        return a;
    }
    let here = Place {
        at: a.at,
        written: a.written,
        state: a.state,
        flag: a.flag,
    };
    let r = counted_run(encoding, mode, &*chunk, &*t1, &*t2, room, here);
    Counted {
        at: r.at,
        written: r.written,
        lines: a.lines + r.lines,
        state: r.state,
        flag: r.flag,
    }
}
