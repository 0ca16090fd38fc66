// A table filled from a published index file, in parts of any length.
#![tactic(auto)]

ghost use Rattle.std.specs.Prelude.{◌≡◌, ◌≢◌, ◌≤◌, length};
ghost use Rattle.std.specs.Result.{ForErr};
ghost use Rattle.index_spec.specs.IndexCall.{index_line};
ghost use Rattle.index_loading.specs.Steps.{at, most, placed, told, on_byte, on_bytes, on_end, Stands, GoesOn};

use index::index_line;

// Where loading stands: how many bytes of the started line are kept, and the refusal number of a line at fault or 0.
// A number and not an Option: the definitions of what the program mends name it.
#[derive(Clone, Copy)]
pub struct Loading {
    pub length: usize,
    pub refusal: u8,
}

// So many bytes of a line are kept: one more than a line may have.
const ROOM: usize = 1025;

// At most 1,025 bytes are kept.
fn most(s: Loading) -> Loading
    ensures { (result ≡ most s) × (result.length ≤ 1025) }
{
    Loading {
        length: s.length.min(ROOM),
        refusal: s.refusal,
    }
}

// Where loading stands once a step is done: the bytes that are kept, or the refusal number of a line at fault.
fn told(step: Result<usize, u8>) -> Loading
    ensures { result ≡ told step }
{
    match step {
        Ok(length) => Loading { length, refusal: 0 },
        Err(refusal) => Loading { length: 0, refusal },
    }
}

// A line is closed, and nothing is kept of it.
fn close(line: &[u8], table: &mut [u32]) -> Result<usize, u8>
    ensures stands { (told result ≡ at 0 (index_line line.now table.old).answer.refusal) ×
        (table.new ≡ (index_line line.now table.old).table) }
    ensures fault { ForErr result (λ r. r ≢ 0) }
{
    match index_line(line, table).refusal {
        0 => Ok(0),
        refusal => Err(refusal),
    }
}

// One byte of the file, behind n bytes of the started line.
fn load_byte(n: usize, b: u8, line: &mut [u8], table: &mut [u32]) -> Result<usize, u8>
    requires few { n ≤ 1025 }
    requires room { 1025 ≤ length line.old }
    ensures stands { Stands (on_byte (placed (at n 0) line.old table.old) b) (told result) line.new table.new }
    ensures fault { ForErr result (λ r. r ≢ 0) }
{
    if b == b'\n' {
        return close(&line[..n], table);
    }
    if n == ROOM {
        return Ok(n);
    }
    line[n] = b;
    Ok(n + 1)
}

// Bytes of the file, one after another, until a line is at fault.
fn load_bytes(start: usize, bytes: &[u8], line: &mut [u8], table: &mut [u32]) -> Result<usize, u8>
    requires few { start ≤ 1025 }
    requires room { 1025 ≤ length line.old }
    ensures { Stands (on_bytes (placed (at start 0) line.old table.old) bytes.now)
        (told result) line.new table.new }
{
    let mut n = start;
    for b in bytes {
        n = load_byte(n, *b, line, table)?;
    }
    Ok(n)
}

// A part of the file, behind what was loaded before. The room keeps the started line, at most 1,025 bytes of it.
pub fn load(s: Loading, bytes: &[u8], line: &mut [u8], table: &mut [u32]) -> Loading
    ensures { GoesOn line.old table.old s (λ p. on_bytes p bytes.now) result line.new table.new }
{
    if line.len() < ROOM {
        return Loading {
            length: s.length,
            refusal: 7,
        };
    }
    let place = most(s);
    if place.refusal != 0 {
        return place;
    }
    told(load_bytes(place.length, bytes, line, table))
}

// The end of the file: the last line counts without a line feed, too.
pub fn load_end(s: Loading, line: &[u8], table: &mut [u32]) -> Loading
    ensures { GoesOn line.now table.old s on_end result line.now table.new }
{
    if line.len() < ROOM {
        return Loading {
            length: s.length,
            refusal: 7,
        };
    }
    let place = most(s);
    if place.refusal != 0 {
        return place;
    }
    told(close(&line[..place.length], table))
}
