// The bytes of one scalar in the encodings that write pairs: document 02, Asks 5 to 8. Slots help the search where a text is long and no
// reverse index is lent.
#![tactic(auto)]

mod big5;
mod euc_jp;
mod euc_kr;
mod gb18030;
mod iso_2022_jp;
mod pairs;
mod shift_jis;
mod slots;

ghost use Rattle.std.specs.Prelude.{◌≡◌, true, ◌&&◌, List, [], ◌∷◌, ℕ, eqb};
ghost use Rattle.standard.specs.Base.{◌then◌else◌};
ghost use Rattle.standard.specs.Machine.{tokens, error_with};
ghost use Rattle.standard.specs.Encoders.Iso2022Jp.{control};
ghost use Rattle.reverse_index_spec.specs.ReverseIndex.{look_up};
ghost use Rattle.pair_writers.specs.Pairs.{told, pair_encode, pair_state, Plain, low_of, high_of, cells_of, Ready, Fillable};
ghost use Rattle.pair_writers.specs.Fours.{Ordered};

// What is written of one scalar: one, two or four bytes. An unwritable one has an error that names a code point.
#[derive(Clone, Copy)]
pub enum One {
    Unwritable(u32),
    Byte(u8),
    Two([u8; 2]),
    Four([u8; 4]),
}

// Are gb18030's ranges in order? Told once for many scalars.
pub fn ordered(encoding: u8, second: &[u32]) -> bool
    ensures { Ordered result second.now }
{
    encoding == 30 && gb18030::ordered(second)
}

// GBK (29) and gb18030, Big5 (31), EUC-JP (32), ISO-2022-JP (33) in the state that it is written in, Shift_JIS (34) and EUC-KR; by a
// reverse index of any cells, or of none. `ordered` tells that gb18030's ranges are in order.
pub fn bytes_of(
    encoding: u8,
    table: &[u32],
    links: &[u32],
    second: &[u32],
    ordered: bool,
    slots: &[u16],
    c: u32,
) -> One
    ensures { Ready encoding table.now links.now second.now slots.now →
        Ordered ordered second.now →
        told result ≡ pair_encode encoding (look_up table.now links.now) second.now c }
{
    match encoding {
        0..=30 => gb18030::bytes_of(encoding == 29, table, links, second, ordered, slots, c),
        31 => big5::bytes_of(table, links, slots, c),
        32 => euc_jp::bytes_of(table, links, slots, c),
        33 => iso_2022_jp::bytes_of(table, links, second, slots, c),
        34 => shift_jis::bytes_of(table, links, slots, c),
        _ => euc_kr::bytes_of(table, links, slots, c),
    }
}

// ASCII: its own byte, but for the controls of ISO-2022-JP.
pub fn ascii(encoding: u8, c: u8) -> One
    ensures { told result ≡ (eqb encoding 33 && control c then error_with 0xFFFD else tokens (c ∷ [])) }
{
    if encoding == 33 {
        iso_2022_jp::ascii(c)
    } else {
        One::Byte(c)
    }
}

// Is it an ASCII scalar whose one byte leaves the state as it is? In ISO-2022-JP only in ASCII. The encoding is told first: it is the same
// in a whole text, so that a loop asks for it once.
pub fn plain(encoding: u8, state: u8, c: u32) -> bool
    ensures { result ≡ true → Plain encoding state c }
{
    match encoding {
        33 => c < 0x80 && state == 0 && !iso_2022_jp::control(c),
        _ => c < 0x80,
    }
}

// The state after a scalar, by what is written of it: it stays but in ISO-2022-JP.
pub fn state_for(encoding: u8, state: u8, c: u32, one: One) -> u8
    ensures { result ≡ pair_state encoding state c (told one) }
{
    if encoding == 33 {
        iso_2022_jp::state_for(state, c, one)
    } else {
        state
    }
}

// The first table of an encoding: how many cells it has, and the pointers that are passed over, from low to high.
#[derive(Clone, Copy)]
pub(crate) struct Shape {
    pub(crate) cells: usize,
    pub(crate) low: usize,
    pub(crate) high: usize,
}

fn shape_of(encoding: u8) -> Shape
    ensures cells { result.cells ≡ cells_of encoding }
    ensures low { result.low ≡ low_of encoding }
    ensures high { result.high ≡ high_of encoding }
{
    let (cells, low, high) = match encoding {
        0..=30 => (23940, 1, 0),
        31 => (19782, 0, 5023),
        32 | 33 => (11280, 8836, 11279),
        34 => (11280, 8272, 10715),
        _ => (23940, 1, 0),
    };
    Shape { cells, low, high }
}

// Slots, from empty ones: right by any reverse index and any second table.
pub fn fill(encoding: u8, table: &[u32], slots: &mut [u16])
    ensures { Fillable encoding table.now slots.old →
        (links second : List ℕ) → Ready encoding table.now links second slots.new }
{
    let shape = shape_of(encoding);
    if table.len() == shape.cells && slots.len() == 65536 {
        slots::fill(encoding, table, shape, slots);
    }
}
