// An index beside a table, by the upper part of the code point: document 02, Ask 8.
#![tactic(auto)]

mod links;
mod walks;

ghost use Rattle.std.specs.Prelude.{◌≡◌, length};
ghost use Rattle.standard.specs.Search.{pass_over, first, last};
ghost use Rattle.index.specs.IndexCode.{pointer_of};
ghost use Rattle.reverse_index_spec.specs.ReverseIndex.{fits, look_up};
ghost use Rattle.reverse_index_spec.specs.Calls.{index_size, building, indexed_line};
ghost use Rattle.reverse_index.specs.Code.{number_of};

use index_spec::Line;
use walks::{Side, walk};

// The cells of an index of a table of so many cells; 0 where there can be none.
#[tactic(auto, unfolding(reverse_index_spec::specs::Calls::index_size))]
pub fn size(cells: usize) -> usize
    ensures { result ≡ index_size cells }
{
    // A number and not an Option: the C interface has it.
    if cells <= 0xFFFF_FFFF {
        cells + cells
    } else {
        0
    }
}

// Has an index the length for a table?
pub fn fits(table: &[u32], index: &[u32]) -> bool
    ensures { result ≡ fits (length table.now) (length index.now) }
{
    links::fits(table.len(), index.len())
}

// Why an index is not built.
#[derive(Clone, Copy)]
enum Refusal {
    UnknownEncoding,
    TableLength,
    IndexLength,
}

fn try_build(encoding: u8, table: &[u32], index: &mut [u32]) -> Result<(), Refusal>
    ensures { (number_of result ≡ (building encoding table.now index.old).refusal) ×
        (index.new ≡ (building encoding table.now index.old).index) }
{
    if 39 < encoding {
        return Err(Refusal::UnknownEncoding);
    }
    if !index::first_fits(encoding, table) {
        return Err(Refusal::TableLength);
    }
    if !links::fits(table.len(), index.len()) {
        return Err(Refusal::IndexLength);
    }
    links::clear(index, table.len());
    links::fill(table, index);
    Ok(())
}

// The index of an encoding's first table, built in the lent cells. 2: no such encoding. 4: the table's length. 15: the index's.
pub fn build(encoding: u8, table: &[u32], index: &mut [u32]) -> u8
    ensures { (result ≡ (building encoding table.now index.old).refusal) ×
        (index.new ≡ (building encoding table.now index.old).index) }
{
    // A number and not a Result: the C interface has it.
    match try_build(encoding, table, index) {
        Ok(()) => 0,
        Err(Refusal::UnknownEncoding) => 2,
        Err(Refusal::TableLength) => 4,
        Err(Refusal::IndexLength) => 15,
    }
}

// The index line call with an index. 15: the index has not the length for the table.
pub fn index_line(line: &[u8], table: &mut [u32], index: &mut [u32]) -> Line
    ensures { (result ≡ (indexed_line line.now table.old index.old).answer) ×
        (table.new ≡ (indexed_line line.now table.old index.old).table) ×
        (index.new ≡ (indexed_line line.now table.old index.old).index) }
{
    if !links::fits(table.len(), index.len()) {
        // Numbers and not enums: the C record has them.
        return Line {
            pointer: 0,
            refusal: 15,
            entry: 0,
        };
    }
    let r = index::index_line(line, table);
    if r.entry != 1 {
        return r;
    }
    let p = r.pointer as usize;
    links::insert(table.len(), index, p, table[p]);
    r
}

// The pointer of a code point in a table, with the pointers from low to high passed over, by an index of any cells.
pub fn pointer_outside(table: &[u32], index: &[u32], low: u32, high: u32, c: u32) -> Option<usize>
    ensures { pointer_of result ≡ look_up table.now index.now first (pass_over low high) c }
{
    walk(Side::First, table, index, low as usize, high as usize, c).or_else(
        || index::pointer_outside(table, low, high, c),
    )
}

// The last pointer.
pub fn last_outside(table: &[u32], index: &[u32], low: u32, high: u32, c: u32) -> Option<usize>
    ensures { pointer_of result ≡ look_up table.now index.now last (pass_over low high) c }
{
    walk(Side::Last, table, index, low as usize, high as usize, c).or_else(|| index::last_outside(
        table, low, high, c,
    ))
}
