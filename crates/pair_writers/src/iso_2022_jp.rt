// ISO-2022-JP: 000, 12.2.2, and document 02, Ask 6. The bytes of a scalar in the state that it is written in, and that state.

ghost use Rattle.std.specs.Prelude.{◌≡◌, ◌&&◌, [], ◌∷◌};
ghost use Rattle.standard.specs.Base.{◌then◌else◌};
ghost use Rattle.standard.specs.Machine.{tokens, error_with};
ghost use Rattle.standard.specs.Encoders.EucJp.{jis0208_over};
ghost use Rattle.standard.specs.Encoders.Iso2022Jp.{control, roman_lacks, changed};
ghost use Rattle.standard.specs.Ones.{iso2022_jp_encode, written_in, state_for};
ghost use Rattle.reverse_index_spec.specs.ReverseIndex.{look_up};
ghost use Rattle.pair_writers.specs.Pairs.{told, optional, Helped};

use crate::{One, pairs};

// U+000E, U+000F and U+001B are errors.
pub(crate) fn control(c: u32) -> bool
    ensures { result ≡ control c }
{
    matches!(c, 0x0E | 0x0F | 0x1B)
}

pub(crate) fn ascii(c: u8) -> One
    ensures { told result ≡ (control c then error_with 0xFFFD else tokens (c ∷ [])) }
{
    if control(c as u32) {
        return One::Unwritable(0xFFFD);
    }
    One::Byte(c)
}

// U+2212 and katakana of half width are looked up, and named in an error, as another code point; none for an unmapped katakana cell.
fn changed(katakana: &[u32], c: u32) -> Option<u32>
    ensures { optional result ≡ changed katakana.now c }
{
    if !pairs::katakana(c) {
        return Some(pairs::minus(c));
    }
    match index::cell(katakana, (c - 0xFF61) as usize) {
        0 => None,
        cell => Some(cell),
    }
}

// The pointers behind the 94 rows are passed over.
pub(crate) fn bytes_of(table: &[u32], links: &[u32], katakana: &[u32], slots: &[u16], c: u32) -> One
    ensures { Helped 11280 jis0208_over table.now slots.now →
        told result ≡ iso2022_jp_encode (look_up table.now links.now) katakana.now c }
{
    if c < 0x80 {
        return ascii(c as u8);
    }
    if c == 0xA5 {
        return One::Byte(0x5C);
    }
    if c == 0x203E {
        return One::Byte(0x7E);
    }
    match changed(katakana, c) {
        Some(d) => pairs::pair(33, table, links, slots, 8836, 11279, d),
        None => One::Unwritable(c),
    }
}

// Roman lacks U+005C and U+007E of ASCII.
fn roman_lacks(c: u32) -> bool
    ensures { result ≡ roman_lacks c }
{
    matches!(c, 0x5C | 0x7E)
}

// The state that a scalar is written in, from a state: 0 is ASCII, 1 Roman, 2 the two-byte state. A number and not an enum: the C record
// has it.
fn written_in(state: u8, c: u32) -> u8
    ensures { result ≡ written_in state c }
{
    if c < 0x80 {
        return u8::from(state == 1 && !roman_lacks(c));
    }
    if c == 0xA5 || c == 0x203E { 1 } else { 2 }
}

// The state after it, by what is written of it: an error leaves the two-byte state.
pub(crate) fn state_for(state: u8, c: u32, one: One) -> u8
    ensures { result ≡ state_for state c (told one) }
{
    match one {
        One::Unwritable(_) => if state == 2 { 0 } else { state },
        _ => written_in(state, c),
    }
}
