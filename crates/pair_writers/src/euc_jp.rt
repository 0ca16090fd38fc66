// EUC-JP: 000, 12.1.2, and document 02, Ask 5.

ghost use Rattle.std.specs.Prelude.{◌≡◌};
ghost use Rattle.standard.specs.Encoders.EucJp.{jis0208_over, euc_jp_encode};
ghost use Rattle.reverse_index_spec.specs.ReverseIndex.{look_up};
ghost use Rattle.pair_writers.specs.Pairs.{told, Helped};

use crate::{One, pairs};

// The pointers behind the 94 rows are passed over.
pub(crate) fn bytes_of(table: &[u32], links: &[u32], slots: &[u16], c: u32) -> One
    ensures { Helped 11280 jis0208_over table.now slots.now →
        told result ≡ euc_jp_encode (look_up table.now links.now) c }
{
    if c < 0x80 {
        return One::Byte(c as u8);
    }
    if c == 0xA5 {
        return One::Byte(0x5C);
    }
    if c == 0x203E {
        return One::Byte(0x7E);
    }
    if pairs::katakana(c) {
        return One::Two([0x8E, (c - 0xFF61 + 0xA1) as u8]);
    }
    pairs::pair(32, table, links, slots, 8836, 11279, pairs::minus(c))
}
