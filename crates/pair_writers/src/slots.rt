// Slots for long texts: 65,536 numbers by code point; all code points above U+FFFF share the slot of U+0000. 0 tells that no pointer that
// is searched has the slot, and a number of 256 or more is the bytes of the code point. 1 tells nothing.

ghost use Rattle.std.specs.Prelude.{◌≡◌, true, List, ℕ, ◌+◌, ◌*◌, ◌/◌, ◌≤◌, ◌<◌, eqb, length, get_or, replicate};
ghost use Rattle.standard.specs.Base.{◌then◌else◌};
ghost use Rattle.standard.specs.Search.{passed, pass_over, first};
ghost use Rattle.layouts.specs.Rows.{layout_of};
ghost use Rattle.index.specs.IndexCode.{pointer_of};
ghost use Rattle.reverse_index_spec.specs.ReverseIndex.{look_up};
ghost use Rattle.pair_writers.specs.Pairs.{low_of, high_of, cells_of, slot_of, entered, Filled, Row, Trails, Laid, Plainly, Excepted, Marked, Right, Aids};

use crate::Shape;

// The slot of a code point.
fn slot_of(c: u32) -> usize
    ensures { (result ≡ slot_of c) × (result < 0x10000) }
{
    if c < 0x10000 { c as usize } else { 0 }
}

// Slots that tell nothing, from one up to another.
fn mark(slots: &mut [u16], from: usize, to: usize)
    requires { (from ≤ to) × (to ≤ length slots.old) }
    ensures { Marked slots.old from to slots.new }
{
    slots[from..to].fill(1);
}

// A number for an empty slot, else 1.
fn only(before: u16, v: u16) -> u16
    ensures { result ≡ (eqb before 0 then v else 1) }
{
    if before == 0 { v } else { 1 }
}

// A cell put into its slot, where it counts as mapped. Stretch after stretch of numbers: most cells are told by the first two.
fn enter(slots: &mut [u16], c: u32, v: u16)
    requires { length slots.old ≡ 0x10000 }
    ensures { slots.new ≡ entered slots.old c v }
{
    match c {
        0..=0x7F => return,
        0x80..=0xD7FF => {}
        0xD800..=0xDFFF => return,
        0xE000..=0xFFFF => {}
        0x1_0000..=0x10_FFFF => {
            slots[0] = 1;
            return;
        }
        _ => return,
    }
    slots[c as usize] = only(slots[c as usize], v);
}

// The cells of a row.
fn fill_row(
    table: &[u32],
    at: usize,
    width: usize,
    lead: u16,
    trails: &[u16; 190],
    slots: &mut [u16],
)
    requires { (at + width ≤ length table.now) × (width ≤ length trails.now) × (length slots.old ≡ 0x10000) ×
        ((j : ℕ) → j < width → lead + get_or trails.now j 0 < 0x10000) }
    ensures { (e : ℕ) → Row e at width lead trails.now → Filled e table.now at slots.old →
        Filled e table.now (at + width) slots.new }
{
    for (c, trail) in table[at..at + width].iter().zip(trails) {
        enter(slots, *c, lead + *trail);
    }
}

fn passed(low: usize, high: usize, p: usize) -> bool
    ensures { result ≡ passed (pass_over low high) p }
{
    (low..=high).contains(&p)
}

// A lead in the upper half of a number.
fn upper(b: u8) -> u16
    ensures { (result ≡ b * 256) × (b < 256) }
{
    u16::from(b) * 256
}

// What the rows of an encoding are filled from: its table and the shape of it, the cells of a row, and the trails of the columns.
#[derive(Clone, Copy)]
struct Rows<'a> {
    encoding: u8,
    table: &'a [u32],
    shape: Shape,
    width: usize,
    trails: &'a [u16; 190],
    ghost laid: { Laid encoding table.now shape.low shape.high width trails.now },
}

// The cells of a row, by its number, unless its pointers are passed over: all of them are, or none.
fn fill_searched(rows: Rows<'_>, row: usize, slots: &mut [u16])
    requires { (row < length rows.table.now / rows.width) × (length slots.old ≡ 0x10000) }
    ensures { Filled rows.entry.encoding rows.entry.table.now (row * rows.entry.width) slots.old →
        Filled rows.entry.encoding rows.entry.table.now (row * rows.entry.width + rows.entry.width) slots.new }
{
    let at = row * rows.width;
    if passed(rows.shape.low, rows.shape.high, at) {
        return;
    }
    let pair = layouts::two_bytes(rows.encoding, at);
    fill_row(
        rows.table,
        at,
        rows.width,
        upper(pair.lead),
        rows.trails,
        slots,
    );
}

// The cells of all rows.
fn fill_rows(rows: Rows<'_>, slots: &mut [u16])
    requires { length slots.old ≡ 0x10000 }
    ensures { Filled rows.entry.encoding rows.entry.table.now 0 slots.old →
        Filled rows.entry.encoding rows.entry.table.now (length rows.entry.table.now) slots.new }
{
    for row in 0..rows.table.len() / rows.width {
        fill_searched(rows, row, slots);
    }
}

// The trails of the columns.
fn fill_trails(encoding: u8, trails: &mut [u16; 190])
    ensures { Trails encoding (layout_of encoding).divisor trails.new }
{
    for (k, trail) in trails.iter_mut().enumerate() {
        *trail = u16::from(layouts::two_bytes(encoding, k).trail);
    }
}

// ASCII into its slots, but in ISO-2022-JP, where it goes by the state.
fn fill_ascii(encoding: u8, slots: &mut [u16])
    requires { length slots.old ≡ 0x10000 }
    ensures { Plainly encoding slots.old slots.new }
{
    if encoding == 33 {
        return;
    }
    for k in 1..0x80_u16 {
        slots[usize::from(k)] = k * 256;
    }
}

// Slots of code points that some encoder does not look up as they are: they tell nothing.
fn except(slots: &mut [u16])
    requires { length slots.old ≡ 0x10000 }
    ensures { Excepted slots.old slots.new }
{
    mark(slots, 0x80, 0x81);
    mark(slots, 0xA5, 0xA6);
    mark(slots, 0x203E, 0x203F);
    mark(slots, 0x20AC, 0x20AD);
    mark(slots, 0x2212, 0x2213);
    mark(slots, 0xE5E5, 0xE5E6);
    mark(slots, 0xFF61, 0xFFA0);
}

// The slots of an encoding, from empty ones: right by any reverse index and any second table.
pub(crate) fn fill(encoding: u8, table: &[u32], shape: Shape, slots: &mut [u16])
    requires { (length table.now ≡ cells_of encoding) × (shape.low ≡ low_of encoding) × (shape.high ≡ high_of encoding) ×
        (length slots.old ≡ 0x10000) }
    ensures { slots.old ≡ replicate 0x10000 0 →
        (links second : List ℕ) → Right encoding table.now links second slots.new }
{
    let mut trails = [0u16; 190];
    fill_trails(encoding, &mut trails);
    let rows = Rows {
        encoding,
        table,
        shape,
        width: layouts::divisor(encoding),
        trails: &trails,
    };
    fill_rows(rows, slots);
    fill_ascii(encoding, slots);
    except(slots);
}

// Do slots tell that no pointer has the slot of a code point? A slice of any other length than 65,536 is no slots: an `Option` of an array
// is no plainer, since a loop that fills slots would lend it anew for each scalar.
fn missing(slots: &[u16], c: u32) -> bool
    ensures { result ≡ true → (length slots.now ≡ 0x10000) × (get_or slots.now (slot_of c) 0 ≡ 0) }
{
    if slots.len() != 65536 {
        return false;
    }
    slots[slot_of(c)] == 0
}

// The pointer of a code point, by a reverse index of any cells or of none.
pub(crate) fn pointer(
    table: &[u32],
    links: &[u32],
    slots: &[u16],
    low: u32,
    high: u32,
    c: u32,
) -> Option<usize>
    ensures { Aids (pass_over low high) table.now slots.now →
        pointer_of result ≡ look_up table.now links.now first (pass_over low high) c }
{
    if missing(slots, c) {
        return None;
    }
    reverse_index::pointer_outside(table, links, low, high, c)
}
