// Slots for long texts: 2,048, by a scalar's remainder, each with a scalar times 256 plus its byte. An empty slot is 0, which is right too.

ghost use Rattle.std.specs.Prelude.{◌≡◌, ◌≤◌, ◌<◌, length, replicate};
ghost use Rattle.standard.specs.Indexes.{windows1252};
ghost use Rattle.standard.specs.Search.{searching};
ghost use Rattle.standard.specs.Encoders.SingleByte.{single_byte_encode};
ghost use Rattle.reverse_index_spec.specs.ReverseIndex.{look_up};
ghost use Rattle.encoder.specs.WriterCode.{given, encoder_of, Slots, OneByte, BySlots, entered};

// A cell and its byte, put into their slot where the cell counts as mapped.
fn enter(slots: &mut [u32], c: u32, b: u8)
    requires { length slots.old ≡ 2048 }
    ensures { slots.new ≡ entered slots.old c b }
{
    if index::mapped(c) {
        slots[(c % 2048) as usize] = c * 256 + u32::from(b);
    }
}

// The cells of a table, from the last on, so that the first of equal cells stays.
fn fill_table(table: &[u32], slots: &mut [u32])
    requires { (length table.now ≤ 128) × (slots.old ≡ replicate 2048 0) }
    ensures { Slots (single_byte_encode (searching table.now)) slots.new }
{
    for p in (0..table.len()).rev() {
        enter(slots, table[p], p as u8 + 0x80);
    }
}

// The cells of a table, each looked up by a reverse index of any cells.
fn fill_looked(table: &[u32], links: &[u32], slots: &mut [u32])
    requires { (length table.now ≤ 128) × (slots.old ≡ replicate 2048 0) }
    ensures { Slots (single_byte_encode (look_up table.now links.now)) slots.new }
{
    for c in table {
        if let Some(b) = crate::single_byte::byte_of(table, links, *c) {
            enter(slots, *c, b);
        }
    }
}

// A0 to FF of windows-1252, which stand for themselves.
fn fill_regular(slots: &mut [u32])
    requires { (length slots.old ≡ 2048) × Slots (single_byte_encode (searching windows1252)) slots.old }
    ensures { Slots (single_byte_encode (searching windows1252)) slots.new }
{
    for c in 0xA0..0x100_u32 {
        slots[c as usize] = c * 256 + c;
    }
}

// From how many scalars on the slots save more time than they cost.
pub(crate) fn least(encoding: u8, links: &[u32]) -> usize
    ensures { result ≤ 16385 }
{
    if 28 < encoding {
        return 16385;
    }
    if encoding == 21 {
        return 256;
    }
    if links.is_empty() { 16 } else { 256 }
}

// The slots of an encoding, from empty ones.
pub(crate) fn fill(encoding: u8, table: &[u32], links: &[u32], slots: &mut [u32])
    requires { OneByte encoding table.now × (slots.old ≡ replicate 2048 0) }
    ensures { Slots (encoder_of encoding (look_up table.now links.now)) slots.new }
{
    if 28 < encoding {
        return;
    }
    if encoding == 21 {
        fill_table(&index::IRREGULAR, slots);
        fill_regular(slots);
        return;
    }
    if links.is_empty() {
        fill_table(table, slots);
    } else {
        fill_looked(table, links, slots);
    }
}

// The byte of a scalar in an encoding of one byte a scalar, by its slot or looked up; none where it is unwritable.
pub(crate) fn byte_of(
    encoding: u8,
    table: &[u32],
    links: &[u32],
    slots: &[u32],
    c: u32,
) -> Option<u8>
    requires { BySlots encoding table.now links.now slots.now }
    ensures { given c result ≡ encoder_of encoding (look_up table.now links.now) c }
{
    if c < 0x80 {
        return Some(c as u8);
    }
    if slots.len() == 2048 {
        let s = slots[(c % 2048) as usize];
        if s / 256 == c {
            return Some((s % 256) as u8);
        }
    }
    crate::one_byte::byte_of(encoding, table, links, c)
}
