// Index tables: document 01, "Tables the caller lends" and "Index line".
#![tactic(auto)]

mod lengths;
mod reading;

use index_spec::Line;
use reading::BadLine;

// What the bytes 80 to 9F map to in windows-1252.
pub const IRREGULAR: [u32; 32] = [
    0x20AC, 0x0081, 0x201A, 0x0192, 0x201E, 0x2026, 0x2020, 0x2021, 0x02C6, 0x2030, 0x0160, 0x2039,
    0x0152, 0x008D, 0x017D, 0x008F, 0x0090, 0x2018, 0x2019, 0x201C, 0x201D, 0x2022, 0x2013, 0x2014,
    0x02DC, 0x2122, 0x0161, 0x203A, 0x0153, 0x009D, 0x017E, 0x0178,
];

ghost use Rattle.std.specs.Prelude.{◌≡◌, ◌==◌, not, ◌&&◌, ◌≤◌, eqb, length, take, false, position};
ghost use Rattle.std.specs.List.{list_any};
ghost use Rattle.standard.specs.Base.{within, mapped};
ghost use Rattle.standard.specs.Encodings.{family, traits, fits, lent};
ghost use Rattle.standard.specs.Sequence.{cell};
ghost use Rattle.standard.specs.Search.{pass_over, first, last, search, index_pointer, pointer_from};
ghost use Rattle.index_spec.specs.IndexCall.{index_line};
ghost use Rattle.index.specs.IndexCode.{answer_of, pointer_of};
ghost use Rattle.index.specs.declared.Refusal.TheVariants.{BadLine};
ghost use Rattle.std.proofs.Math.Seq.{slice};

// Does a cell count as mapped: is it a scalar of at least 0x80?
pub fn mapped(c: u32) -> bool
    ensures { result ≡ mapped c }
{
    matches!(c, 0x80..=0xD7FF | 0xE000..=0x10FFFF)
}

// The cell at a pointer; 0 where there is none, or one that counts as unmapped.
#[tactic(auto, unfolding(standard::specs::Sequence::cell))]
pub fn cell(table: &[u32], p: usize) -> u32
    ensures { result ≡ cell table.now p }
{
    match table.get(p) {
        Some(&c) if mapped(c) => c,
        _ => 0,
    }
}

// How many cells at the front are passed over on the way to a code point, in blocks that lack it: `contains` compares several cells at once.
fn passed_over(cells: &[u32], c: u32) -> usize
    ensures within { result ≤ length cells.now }
    ensures lacks { list_any (λ x. x == c) (take result cells.now) ≡ false }
{
    let mut passed = 0;
    for block in cells.chunks_exact(64) {
        if block.contains(&c) {
            return passed;
        }
        passed += 64;
    }
    passed
}

// The first place of a code point in some cells, cell by cell.
fn find_each(cells: &[u32], c: u32) -> Option<usize>
    ensures { result ≡ position (λ x. x == c) cells.now }
{
    cells.iter().position(|x| *x == c)
}

// The same, by blocks.
fn find(cells: &[u32], c: u32) -> Option<usize>
    ensures { result ≡ position (λ x. x == c) cells.now }
{
    let passed = passed_over(cells, c);
    find_each(&cells[passed..], c).map(|place| passed + place)
}

// The pointer of a code point in a stretch of a table, from `start` on and before `end`: the first whose cell counts as mapped and equals it.
pub fn pointer_between(table: &[u32], start: usize, end: usize, c: u32) -> Option<usize>
    ensures { pointer_of result ≡ pointer_from start (slice start end table.now) c }
{
    if !mapped(c) {
        return None;
    }
    let stretch = table.get(start..end.min(table.len()))?;
    find(stretch, c).map(|at| start + at)
}

// The pointer of a code point in a table.
pub fn pointer(table: &[u32], c: u32) -> Option<usize>
    ensures { pointer_of result ≡ index_pointer table.now c }
{
    pointer_between(table, 0, table.len(), c)
}

// The pointer of a code point in a table, with the pointers from low to high passed over.
pub fn pointer_outside(table: &[u32], low: u32, high: u32, c: u32) -> Option<usize>
    ensures { pointer_of result ≡ search first (pass_over low high) table.now c }
{
    pointer_between(table, 0, low as usize, c).or_else(|| pointer_between(
        table,
        high as usize + 1,
        table.len(),
        c,
    ))
}

// Is a cell the code point, counting as mapped, and its pointer not from low to high?
pub fn hits(low: usize, high: usize, p: usize, x: u32, c: u32) -> bool
    ensures { result ≡ (not (within low p high) && (mapped x && eqb x c)) }
{
    x == c && mapped(x) && (p < low || high < p)
}

// The last pointer of a code point in a table, with the pointers from low to high passed over.
pub fn last_outside(table: &[u32], low: u32, high: u32, c: u32) -> Option<usize>
    ensures { pointer_of result ≡ search last (pass_over low high) table.now c }
{
    for p in (0..table.len()).rev() {
        if hits(low as usize, high as usize, p, table[p], c) {
            return Some(p);
        }
    }
    None
}

// Is the first table's length as it must be for an encoding?
pub fn first_fits(encoding: u8, first: &[u32]) -> bool
    ensures { result ≡ eqb (length first.now) (traits (family encoding)).first }
{
    first.len() == lengths::first_cells(encoding)
}

// Are the lent tables' lengths as they must be for an encoding?
#[tactic(auto, unfolding(standard::specs::Encodings::fits))]
pub fn tables_fit(encoding: u8, first: &[u32], second: &[u32]) -> bool
    ensures { result ≡ fits (family encoding) (lent first.now second.now) }
{
    first_fits(encoding, first) && lengths::second_fits(encoding, second.len())
}

// Why a line is refused.
#[derive(Clone, Copy)]
enum Refusal {
    LongLine,
    BadLine,
    NoFreeCell,
}

impl From<BadLine> for Refusal {
    ghost from_gives = { λ _ r. r ≡ BadLine };

    fn from(_: BadLine) -> Refusal {
        Refusal::BadLine
    }
}

// A line's entry put into the table: its pointer, or none for a line without an entry.
fn enter(line: &[u8], table: &mut [u32]) -> Result<Option<u32>, Refusal>
    ensures { (answer_of result ≡ (index_line line.now table.old).answer) ×
        (table.new ≡ (index_line line.now table.old).table) }
{
    if 1024 < line.len() {
        return Err(Refusal::LongLine);
    }
    let Some(entry) = reading::read(line)? else {
        return Ok(None);
    };
    let at = entry.pointer as usize;
    if table.len() <= at || table[at] != 0 {
        return Err(Refusal::NoFreeCell);
    }
    table[at] = entry.code_point;
    Ok(Some(entry.pointer))
}

// The index line call: what a line of a published index file is, and its entry put into the table.
pub fn index_line(line: &[u8], table: &mut [u32]) -> Line
    ensures { (result ≡ (index_line line.now table.old).answer) ×
        (table.new ≡ (index_line line.now table.old).table) }
{
    // Numbers and not enums: the C record has them.
    let (pointer, refusal, entry) = match enter(line, table) {
        Ok(Some(pointer)) => (pointer, 0, 1),
        Ok(None) => (0, 0, 0),
        Err(Refusal::LongLine) => (0, 8, 0),
        Err(Refusal::BadLine) => (0, 12, 0),
        Err(Refusal::NoFreeCell) => (0, 13, 0),
    };
    Line {
        pointer,
        refusal,
        entry,
    }
}
