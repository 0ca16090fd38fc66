// Shift_JIS: 000, 12.3.2, and document 02, Ask 5.

ghost use Rattle.std.specs.Prelude.{◌≡◌};
ghost use Rattle.standard.specs.Encoders.ShiftJis.{shift_jis_over, shift_jis_encode};
ghost use Rattle.reverse_index_spec.specs.ReverseIndex.{look_up};
ghost use Rattle.pair_writers.specs.Pairs.{told, Helped};

use crate::{One, pairs};

// The pointers of the user rows, and those before them that stand for the same cells, are passed over.
pub(crate) fn bytes_of(table: &[u32], links: &[u32], slots: &[u16], c: u32) -> One
    ensures { Helped 11280 shift_jis_over table.now slots.now →
        told result ≡ shift_jis_encode (look_up table.now links.now) c }
{
    if c <= 0x80 {
        return One::Byte(c as u8);
    }
    if c == 0xA5 {
        return One::Byte(0x5C);
    }
    if c == 0x203E {
        return One::Byte(0x7E);
    }
    if pairs::katakana(c) {
        return One::Byte((c - 0xFF61 + 0xA1) as u8);
    }
    pairs::pair(34, table, links, slots, 8272, 10715, pairs::minus(c))
}
