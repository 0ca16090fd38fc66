// Document 02, Ask 12, the program `mend`: the list on standard input, its label on the first line, in UTF-8 on standard output, and a line
// for each replaced sequence on standard error.
#![tactic(auto)]

mod lines;

ghost use Rattle.std.specs.Prelude.{◌≡◌, ◌⊎◌, false, [], ◌+◌, ◌*◌, ◌≤◌, ◌<◌, length, take, ◌++◌, Err, IfOk, IfSome, OnOk, IsOk};
ghost use Rattle.std.specs.Io.KnownBytes.{Appends};
ghost use Rattle.standard.specs.Encodings.{lent};
ghost use Rattle.labels_spec.specs.Labels.{label};
ghost use Rattle.replacements_spec.specs.Calls.{feed_telling, finish_telling};
ghost use Rattle.program_text.specs.Lines.{first_line, after_line, refused};
ghost use Rattle.mend_spec.specs.Mended.{encoding_refusal, cells_of, begin_refusal, mended_text};
ghost use Rattle.mend_spec.specs.Program.{fitting, over, step_of};
ghost use Rattle.mend.specs.declared.Refusal.TheVariants.{Table};
ghost use Rattle.mend.specs.Refusals.{number, Numbered};
ghost use Rattle.mend.specs.Steps.{Wrote, Few, Flushed, Written, Suits, Taken};
ghost use Rattle.mend.specs.Files.{Loads, LoadsTable};
ghost use Rattle.mend.specs.Whole.{Provided, WritesMended};
ghost use Rattle.mend.specs.Code.{handed, Told, Sized};

use decoder::Decoder;
use index_loading::{Loading, load, load_end};
use lines::put_spans;
use program_text::refill::fill;
use program_text::{after_line, first_label, put_number, put_text};
use replacements_spec::Replacing;
use std::fs::File;
use std::io;
use std::io::{Read, Write};
use std::rt::Files;

// More reads than any text that a decoder takes needs, and than any file has.
const READS: u64 = 0x4_0000_0000_0000;

// Why the program stops before the end of its input.
#[derive(Clone, Copy)]
enum Refusal {
    // no encoding has the label
    Label,
    // the encoding is not taken, or its index file cannot be read
    Table,
    // the encoding is replacement
    Replacement,
    // there are more bytes than a decoder takes
    Length,
    // a call refuses with this number
    Call(u8),
}

// The number that is printed.
impl From<Refusal> for u64 {
    ghost from_gives = { λ r n. n ≡ number r };

    fn from(refusal: Refusal) -> u64 {
        match refusal {
            Refusal::Label => 1,
            Refusal::Table => 4,
            Refusal::Replacement => 9,
            Refusal::Length => 14,
            Refusal::Call(number) => u64::from(number),
        }
    }
}

// The rooms of a step: one for the scalars of a buffer and of what is held, two cells of the spans for each, four bytes of text for each, and
// 32 bytes of the report for each cell of the spans and for the line of a refusal.
#[derive(Drop)]
struct Rooms {
    room: [u32; 4099],
    spans: [u32; 8198],
    out: [u8; 16396],
    report: [u8; 262368],
}

// What a step leaves: the decoder, the bytes at the front of `out` and of `report`, and whether the program goes on.
#[derive(Clone, Copy)]
struct Mended {
    decoder: Decoder,
    outcome: Result<(), Refusal>,
    written: usize,
    told: usize,
}

// What the first buffer says: the encoding, and the cells of its table.
#[derive(Clone, Copy)]
struct Begun {
    cells: usize,
    encoding: u8,
}

// The answer of a call by its refusal number, which is 0 where it is not refused.
fn answered(number: u8) -> Result<(), Refusal>
    ensures { Numbered result number }
{
    if number == 0 {
        return Ok(());
    }
    Err(Refusal::Call(number))
}

// The cells of the one table of an encoding that is taken: of ISO-2022-JP's and Shift_JIS's, or of a single-byte encoding's but
// windows-1252's, which is built in.
fn cells(encoding: u8) -> Result<usize, Refusal>
    ensures refusal { Numbered result (encoding_refusal encoding) }
    ensures cells { IfOk result (λ n. (n ≡ cells_of encoding) × (n ≤ 11280)) }
{
    match encoding {
        1..=20 | 22..=28 => Ok(128),
        29..=32 | 35 => Err(Refusal::Table),
        33 | 34 => Ok(11280),
        36 => Err(Refusal::Replacement),
        _ => Ok(0),
    }
}

// The first buffer: its label, and what its encoding wants.
fn begin(input: &[u8]) -> Result<Begun, Refusal>
    ensures refusal { Numbered result (begin_refusal input.now) }
    ensures begun { IfOk result (λ b. (b.encoding ≡ (label (first_line input.now)).encoding) ×
        (b.cells ≡ cells_of b.encoding) × (b.cells ≤ 11280)) }
{
    let found = first_label(input);
    if found.refusal != 0 {
        return Err(Refusal::Label);
    }
    let encoding = found.encoding;
    let cells = cells(encoding)?;
    Ok(Begun { cells, encoding })
}

// The outcome of a step: that of its call, or that more bytes come.
fn step_outcome(number: u8, more: bool) -> Result<(), Refusal>
    ensures { Numbered result (step_of number more) }
{
    answered(number)?;
    if more {
        return Err(Refusal::Length);
    }
    Ok(())
}

// What a call gave: the text, the lines of what was replaced, and the line of a refusal.
fn write_step(a: Replacing, more: bool, rooms: &mut Rooms) -> Mended
    requires { Told a rooms.old.room rooms.old.spans }
    ensures wrote { Wrote (handed a rooms.old.room rooms.old.spans) more rooms.old.out rooms.old.report
        result rooms.new.out rooms.new.report }
    ensures few { Few result rooms.new.out rooms.new.report }
    ensures sized { Sized rooms.new }
{
    let answer = a.answer;
    let decoder = answer.decoder;
    let n = answer.written;
    let cells = 2 * a.count;
    let written = put_text(&mut rooms.out, &rooms.room[..n]);
    let told = put_spans(&mut rooms.report, &rooms.spans[..cells]);
    let outcome = step_outcome(answer.refusal, more);
    if let Err(refusal) = outcome {
        let end = put_number(&mut rooms.report, told, b"refused", u64::from(refusal));
        return Mended {
            decoder,
            outcome,
            written,
            told: end,
        };
    }
    Mended {
        decoder,
        outcome,
        written,
        told,
    }
}

// A further buffer, of which a decoder takes no more bytes than it has numbers for.
fn mend_chunk(d: Decoder, chunk: &[u8], table: &[u32], rooms: &mut Rooms) -> Mended
    ensures wrote { Wrote (feed_telling d (lent table.now []) (fitting d chunk.now) rooms.old.room rooms.old.spans)
        (over d chunk.now) rooms.old.out rooms.old.report result rooms.new.out rooms.new.report }
    ensures few { Few result rooms.new.out rooms.new.report }
    ensures sized { Sized rooms.new }
{
    let n = chunk.len().min((u32::MAX - d.taken) as usize);
    let a = replacements::feed(
        d,
        &chunk[..n],
        table,
        &[],
        &mut rooms.room,
        &mut rooms.spans,
    );
    write_step(a, n < chunk.len(), rooms)
}

// The end of input.
fn mend_end(d: Decoder, table: &[u32], rooms: &mut Rooms) -> Mended
    ensures wrote { Wrote (finish_telling d (lent table.now []) rooms.old.room rooms.old.spans)
        false rooms.old.out rooms.old.report result rooms.new.out rooms.new.report }
    ensures few { Few result rooms.new.out rooms.new.report }
    ensures sized { Sized rooms.new }
{
    let a = replacements::finish(d, table, &[], &mut rooms.room, &mut rooms.spans);
    write_step(a, false, rooms)
}

// Where the program reads the list, and where it writes the text and the report.
#[derive(Drop)]
struct Console<R, W, E> {
    input: R,
    output: W,
    errors: E,
}

// Writes what a step gave to both streams.
fn flush<R, W: Write, E: Write>(
    console: &mut Console<R, W, E>,
    s: Mended,
    rooms: &Rooms,
) -> io::Result<()>
    requires { Few s rooms.now.out rooms.now.report }
    ensures input { console.new.input ≡ console.old.input }
    ensures streams { OnOk result (Flushed (W.contents console.old.output) (W.contents console.new.output)
        (E.contents console.old.errors) (E.contents console.new.errors) s rooms.now.out rooms.now.report) }
{
    console.errors.write_all(&rooms.report[..s.told])?;
    console.output.write_all(&rooms.out[..s.written])
}

// The report of a program that is refused before the text.
fn refuse<W: Write>(to: &mut W, refusal: Refusal, report: &mut [u8]) -> io::Result<()>
    requires { 32 ≤ length report.old }
    ensures { OnOk result (Appends (W.contents to.old) (W.contents to.new) (refused (number refusal))) }
{
    let n = put_number(report, 0, b"refused", u64::from(refusal));
    to.write_all(&report[..n])
}

// Opens the published index file of an encoding's table, if it can be opened.
fn open_index<F: Files>(files: &F, encoding: u8) -> Option<F::File> {
    let mut name = [0u8; 32];
    let named = index_files::first_index_name(encoding, &mut name);
    let path = str::from_utf8(name.get(..named.length)?).ok()?;
    File::open(files, path).ok()
}

// Fills the table from an open file, which may be one that cannot be read, or has a line at fault.
fn load_file<R: Read>(
    file: &mut R,
    buffer: &mut [u8],
    line: &mut [u8],
    table: &mut [u32],
) -> Result<(), Refusal>
    ensures { (result ≡ Err Table) ⊎ Loads (R.remaining file.old) (R.remaining file.new) line.old table.old result table.new }
{
    let mut s = Loading {
        length: 0,
        refusal: 0,
    };
    for _ in 0..READS {
        let Ok(n) = fill(file, buffer) else {
            return Err(Refusal::Table);
        };
        s = load(s, &buffer[..n], line, table);
        if n < buffer.len() {
            let end = load_end(s, line, table);
            return answered(end.refusal);
        }
    }
    Err(Refusal::Table)
}

// The one table of an encoding, if it has cells.
fn load_table<F: Files>(
    files: &F,
    encoding: u8,
    buffer: &mut [u8],
    line: &mut [u8],
    table: &mut [u32],
) -> Result<(), Refusal>
    ensures none { length table.old ≡ 0 → IsOk result × (table.new ≡ table.old) }
    ensures file { 0 < length table.old → (result ≡ Err Table) ⊎ LoadsTable line.old table.old result table.new }
{
    if table.is_empty() {
        return Ok(());
    }
    match open_index(files, encoding) {
        Some(mut file) => load_file(&mut file, buffer, line, table),
        None => Err(Refusal::Table),
    }
}

// The text behind the first line, of which so many bytes are in the buffer: buffer after buffer, and the end of input.
fn mend_text<R: Read, W: Write, E: Write>(
    console: &mut Console<R, W, E>,
    encoding: u8,
    read: usize,
    buffer: &mut [u8],
    table: &[u32],
    rooms: &mut Rooms,
) -> io::Result<()>
    requires { read ≤ length buffer.old }
    ensures { OnOk result (IfSome (R.remaining console.old.input) (λ rest.
        Taken encoding table.now × Suits (length buffer.old) rooms.old.room rooms.old.spans × (read < length buffer.old → rest ≡ []) →
        Written (W.contents console.old.output) (W.contents console.new.output) (E.contents console.old.errors) (E.contents console.new.errors)
        (mended_text (lent table.now []) encoding (after_line (take read buffer.old) ++ rest)))) }
{
    let opened = Decoder::open(encoding, 0, 0);
    let first = after_line(&buffer[..read]);
    let mut s = mend_chunk(opened.decoder, first, table, rooms);
    let mut n = read;
    for _ in 0..READS {
        flush(console, s, rooms)?;
        if s.outcome.is_err() {
            return Ok(());
        }
        if n < buffer.len() {
            let last = mend_end(s.decoder, table, rooms);
            return flush(console, last, rooms);
        }
        n = fill(&mut console.input, buffer)?;
        s = mend_chunk(s.decoder, &buffer[..n], table, rooms);
    }
    Ok(())
}

// The program, through a buffer, a room for a line and a table, and the rooms of a step.
fn run<F: Files, R: Read, W: Write, E: Write>(
    files: &F,
    console: &mut Console<R, W, E>,
    buffer: &mut [u8],
    line: &mut [u8],
    table: &mut [u32],
    rooms: &mut Rooms,
) -> io::Result<()>
    requires { 11280 ≤ length table.old }
    ensures { OnOk result (IfSome (R.remaining console.old.input) (λ input.
        Provided (length buffer.old) line.old table.old rooms.old.room rooms.old.spans →
        WritesMended (W.contents console.old.output) (W.contents console.new.output) (E.contents console.old.errors) (E.contents console.new.errors) input)) }
{
    let n = fill(&mut console.input, buffer)?;
    let begun = match begin(&buffer[..n]) {
        Ok(begun) => begun,
        Err(refusal) => return refuse(&mut console.errors, refusal, &mut rooms.report),
    };
    let cells = begun.cells;
    if let Err(refusal) = load_table(
        files,
        begun.encoding,
        &mut rooms.out,
        line,
        &mut table[..cells],
    ) {
        return refuse(&mut console.errors, refusal, &mut rooms.report);
    }
    mend_text(console, begun.encoding, n, buffer, &table[..cells], rooms)
}

fn main(rt: HostRuntime) -> io::Result<()> {
    let mut buffer = [0u8; 4096];
    let mut line = [0u8; 1025];
    let mut table = [0u32; 11280];
    let mut rooms = Rooms {
        room: [0; 4099],
        spans: [0; 8198],
        out: [0; 16396],
        report: [0; 262368],
    };
    let mut console = Console {
        input: rt.stdin(),
        output: rt.stdout(),
        errors: rt.stderr(),
    };
    run(
        &rt,
        &mut console,
        &mut buffer,
        &mut line,
        &mut table,
        &mut rooms,
    )
}
